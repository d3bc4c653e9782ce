//! The cycles that the judge by any order reports. Each row's cycle is the shortest one, found by
//! hand. A search by depth, which follows the edges as they were noted, finds another one first.
use super::entries_of;
use order_check::{Edge, Kind, Options, Reason, Verdict, check};
use std::alloc::{AllocError, Global};
use std::process::Abort;
use std::test::Fail;

/// Transaction 1 reads what 3 replaces, 3 reads what 2 replaces, and 2 reads what 1 replaces. But 3
/// also reads what 1 replaces, at key 4. The search by depth goes from 1 to 2, 3 and back to 1,
/// because 2 commits before 3.
const SHORT_CUT: &str = r#"["began",0,1],["began",1,2],["began",2,3],["asked",0,"get",1],
    ["did",0,null],["asked",1,"get",3],["did",1,null],["asked",2,"get",2],["did",2,null],
    ["asked",2,"get",4],["did",2,null],["asked",0,"put",3,30],["did",0,null],
    ["asked",0,"put",4,40],["did",0,null],["asked",1,"put",2,20],["did",1,null],
    ["asked",2,"put",1,10],["did",2,null],["committed",0,1],["committed",1,2],["committed",2,3]"#;

/// The same three transactions without the read at key 4, and then a write skew of 4 and 5, whose
/// cycle has no transaction of the first one.
const ELSEWHERE: &str = r#"["began",0,1],["began",1,2],["began",2,3],["asked",0,"get",1],
    ["did",0,null],["asked",1,"get",3],["did",1,null],["asked",2,"get",2],["did",2,null],
    ["asked",0,"put",3,30],["did",0,null],["asked",1,"put",2,20],["did",1,null],
    ["asked",2,"put",1,10],["did",2,null],["committed",0,1],["committed",1,2],["committed",2,3],
    ["began",0,4],["began",1,5],["asked",0,"get",5],["did",0,null],["asked",1,"get",6],
    ["did",1,null],["asked",0,"put",6,60],["did",0,null],["asked",1,"put",5,50],["did",1,null],
    ["committed",0,4],["committed",1,5]"#;

/// One transaction after the other, and the third one reads what the first one has replaced. The
/// search by depth goes over the second one, because the edge of real time from the first to the
/// third one follows from two others.
const ONE_BETWEEN: &str = r#"["began",0,1],["asked",0,"put",1,10],["did",0,null],
    ["committed",0,1],["began",0,2],["asked",0,"put",2,20],["did",0,null],["committed",0,2],
    ["began",0,3],["asked",0,"get",1],["did",0,null],["committed",0,3]"#;

/// Transaction 2 reads what 1 had replaced when it began. Then a write skew of 3 and 4, whose cycle
/// has two edges too, and none of real time.
const WITHOUT_TIME: &str = r#"["began",0,1],["asked",0,"put",1,10],["did",0,null],
    ["committed",0,1],["began",0,2],["asked",0,"get",1],["did",0,null],["committed",0,2],
    ["began",0,3],["began",1,4],["asked",0,"get",5],["did",0,null],["asked",1,"get",6],
    ["did",1,null],["asked",0,"put",6,60],["did",0,null],["asked",1,"put",5,50],["did",1,null],
    ["committed",0,3],["committed",1,4]"#;

/// The transaction that an edge comes from, why, and at which key. No edge of these has a value.
type Wanted = (u64, Kind, u64);

/// Each row has a history, whether real time counts, and the cycle.
static CYCLES: [(&str, bool, [Wanted; 2]); 6] = [
    (
        SHORT_CUT,
        false,
        [(1, Kind::Replaced, 1), (3, Kind::Replaced, 4)],
    ),
    (
        SHORT_CUT,
        true,
        [(1, Kind::Replaced, 1), (3, Kind::Replaced, 4)],
    ),
    (
        ELSEWHERE,
        false,
        [(4, Kind::Replaced, 5), (5, Kind::Replaced, 6)],
    ),
    (
        ELSEWHERE,
        true,
        [(4, Kind::Replaced, 5), (5, Kind::Replaced, 6)],
    ),
    (
        ONE_BETWEEN,
        true,
        [(1, Kind::Began, 0), (3, Kind::Replaced, 1)],
    ),
    (
        WITHOUT_TIME,
        true,
        [(3, Kind::Replaced, 5), (4, Kind::Replaced, 6)],
    ),
];

/// Whether these are the edges of a row.
fn are(edges: &[Edge], wanted: &[Wanted]) -> bool {
    edges.len() == wanted.len()
        && edges.iter().zip(wanted).all(|(edge, &(from, kind, key))| {
            *edge
                == Edge {
                    from,
                    kind,
                    key,
                    value: None,
                }
        })
}

/// Checks that the verdict on a history is a cycle with these edges.
fn judge(
    rt: &impl Abort,
    alloc: Global,
    text: &str,
    in_time: bool,
    wanted: &[Wanted],
) -> Result<(), AllocError> {
    let entries = entries_of(alloc, text)?;
    assert!(rt; entries.iter().all(|entry| entry.caller() < 64));
    match check(alloc, Options::new(in_time), &entries)? {
        Verdict::NotSerializable(Reason::Cycle(edges)) => {
            assert!(rt; are(&edges, wanted), "{text}: {edges:?}");
        }
        verdict => assert!(rt; false, "{text}: {verdict:?}"),
    }
    Ok(())
}

#[test]
fn shortest_cycles(rt: HostRuntime) -> Result<(), Fail> {
    for (text, in_time, wanted) in &CYCLES {
        judge(&rt, rt.alloc(), text, *in_time, wanted)?;
    }
    Ok(())
}
