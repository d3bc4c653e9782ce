//! An optional caller in one byte (`Holder`), and an optional stripe in one word (`Link`).
//!
//! A contract sees each of them as an option of a number. The greatest number of the byte or of the
//! word stands for None: no caller has this number, and no vector is long enough to have a stripe
//! with this number.
ghost use Rattle.std.specs.Prelude.{◌≡◌, ◌-◌, ◌^◌, ◌<◌, Some, None};

use std::marker::Model;
use std::mem::size_of;

/// The caller that holds a stripe, or None.
#[derive(Clone, Copy)]
pub(crate) struct Holder {
    caller: u8,
}

const _: () = prove!(size_of::<Holder>() == 1);

impl Model for Holder {
    ghost use Rattle.std.specs.Prelude.{ℕ, Option};
    ghost use Rattle.key_locks.specs.Packed.{packed, packed_unpacked, unpacked};

    ghost Value = { Option ℕ };

    ghost view = { λ h. unpacked 255 h.caller };

    ghost inverse = { λ caller. record { caller = packed 255 caller } };

    ghost inverse_ok = { λ h _ i. record { caller = packed_unpacked 255 h.caller i } };
}

impl Holder {
    /// No caller holds the stripe.
    pub(crate) fn none() -> Holder
        ensures { result ≡ None }
    {
        Holder { caller: u8::MAX }
    }

    /// This caller holds the stripe.
    pub(crate) fn of(caller: usize) -> Holder
        requires { caller < 255 }
        ensures { result ≡ Some caller }
    {
        Holder {
            caller: caller as u8,
        }
    }

    /// The caller that holds the stripe, if there is one.
    pub(crate) fn caller(self) -> Option<usize>
        ensures { result ≡ self }
    {
        if self.caller == u8::MAX {
            None
        } else {
            Some(self.caller as usize)
        }
    }
}

/// A stripe, or None.
#[derive(Clone, Copy)]
pub(crate) struct Link {
    stripe: usize,
}

const _: () = prove!(size_of::<Link>() == 8);

impl Model for Link {
    ghost use Rattle.std.specs.Prelude.{ℕ, Option, ◌-◌, ◌^◌};
    ghost use Rattle.key_locks.specs.Packed.{packed, packed_unpacked, unpacked};

    ghost Value = { Option ℕ };

    ghost view = { λ l. unpacked (2 ^ 64 - 1) l.stripe };

    ghost inverse = { λ stripe. record { stripe = packed (2 ^ 64 - 1) stripe } };

    ghost inverse_ok = { λ l _ i. record { stripe = packed_unpacked (2 ^ 64 - 1) l.stripe i } };
}

impl Link {
    /// The link to no stripe.
    pub(crate) fn none() -> Link
        ensures { result ≡ None }
    {
        Link { stripe: usize::MAX }
    }

    /// The link to this stripe.
    pub(crate) fn to(stripe: usize) -> Link
        requires { stripe < 2 ^ 64 - 1 }
        ensures { result ≡ Some stripe }
    {
        Link { stripe }
    }

    /// The stripe, if there is one.
    pub(crate) fn stripe(self) -> Option<usize>
        ensures { result ≡ self }
    {
        if self.stripe == usize::MAX {
            None
        } else {
            Some(self.stripe)
        }
    }
}
