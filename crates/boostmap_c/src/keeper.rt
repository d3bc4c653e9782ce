//! What the handle of a striped map's host owns: the host, which merges the callers that were
//! freed. When each caller has ended, it hands out the map's history.
ghost use Rattle.std.specs.Prelude.{◌≡◌};

use striped_map::Host;

/// The host of a striped map.
#[derive(Drop)]
pub struct Keeper {
    pub(crate) host: Host,
}

impl Keeper {
    /// The host.
    pub(crate) fn into_host(self) -> Host
        ensures { result ≡ self.host }
    {
        let Keeper { host } = self;
        host
    }
}
