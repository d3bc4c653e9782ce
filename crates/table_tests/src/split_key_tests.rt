//! Tests of `split_key`: numbers that were worked out by hand. The contracts say how split keys,
//! buckets and parents are ordered. The rows test the numbers themselves, also for the lowest and
//! highest keys. Only the text of `BadKey` needs memory.
use split_key::{BadKey, Key, SortKey, bucket_at, bucket_of, dummy, parent, regular, reverse};
use std::process::Abort;
use std::test::Fail;

/// A call with its arguments.
#[derive(Clone, Copy)]
enum Call {
    /// The split key of a bucket's dummy.
    Dummy(u32),
    /// The split key of a key.
    Regular(u64),
    /// The number of a half key.
    Half(u64),
    Parent(u32),
    /// The bucket of a key, in a table of this size.
    BucketOf(u64, u32),
    /// The bucket of a position in the split order, in a table of this size.
    BucketAt(u64, u32),
    Reverse(u64),
}

/// Makes a call and returns its answer. The answer is `None` if `Half` is given a number that is
/// not a half key.
fn answer(call: Call) -> Result<Option<u64>, Fail> {
    match call {
        Call::Dummy(bucket) => Ok(Some(dummy(bucket))),
        Call::Regular(number) => Ok(Some(split_of_number(number)?)),
        Call::Half(number) => match Key::half(number) {
            Ok(key) => Ok(Some(key.number())),
            Err(BadKey) => Ok(None),
        },
        Call::Parent(0) => Err("bucket 0 has no parent".into()),
        Call::Parent(bucket) => Ok(Some(u64::from(parent(bucket)))),
        Call::BucketOf(number, size) => Ok(Some(u64::from(bucket_of_number(number, size)?))),
        Call::BucketAt(split, size) => Ok(Some(u64::from(bucket_at_split(split, size)?))),
        Call::Reverse(word) => Ok(Some(reverse(word))),
    }
}

/// The split key of the key with this number. Fails if `Key::number` returns another number.
fn split_of_number(number: u64) -> Result<u64, Fail> {
    let key = Key::new(number);
    if key.number() != number {
        return Err("a key with another number".into());
    }
    Ok(regular(key))
}

/// The bucket of a key in a table of this size. Fails for sizes other than 2, 4, 8 and 2^31.
fn bucket_of_number(number: u64, size: u32) -> Result<u32, Fail> {
    let key = Key::new(number);
    match size {
        2 => Ok(bucket_of(key, 2)),
        4 => Ok(bucket_of(key, 4)),
        8 => Ok(bucket_of(key, 8)),
        0x8000_0000 => Ok(bucket_of(key, 0x8000_0000)),
        _ => Err("another size".into()),
    }
}

/// The bucket of a position in the split order, in a table of this size. Fails for sizes other than
/// 1, 2, 8 and 2^31.
fn bucket_at_split(split: u64, size: u32) -> Result<u32, Fail> {
    match size {
        1 => Ok(bucket_at(split, 1)),
        2 => Ok(bucket_at(split, 2)),
        8 => Ok(bucket_at(split, 8)),
        0x8000_0000 => Ok(bucket_at(split, 0x8000_0000)),
        _ => Err("another size".into()),
    }
}

/// Each row has a call and its answer.
const ANSWERS: [(Call, Option<u64>); 38] = [
    (Call::Dummy(0), Some(0x0000_0000_0000_0000)),
    (Call::Dummy(2), Some(0x4000_0000_0000_0000)),
    (Call::Dummy(1), Some(0x8000_0000_0000_0000)),
    (Call::Dummy(3), Some(0xc000_0000_0000_0000)),
    (Call::Regular(0), Some(0x0000_0000_0000_0001)),
    (Call::Regular(4), Some(0x2000_0000_0000_0001)),
    (Call::Regular(2), Some(0x4000_0000_0000_0001)),
    (Call::Regular(10), Some(0x5000_0000_0000_0001)),
    (Call::Regular(6), Some(0x6000_0000_0000_0001)),
    (Call::Regular(1), Some(0x8000_0000_0000_0001)),
    (Call::Regular(5), Some(0xa000_0000_0000_0001)),
    (Call::Regular(3), Some(0xc000_0000_0000_0001)),
    (Call::Regular(7), Some(0xe000_0000_0000_0001)),
    (
        Call::Regular(0x7fff_ffff_ffff_ffff),
        Some(0xffff_ffff_ffff_ffff),
    ),
    (
        Call::Regular(0x8000_0000_0000_0000),
        Some(0x0000_0000_0000_0001),
    ),
    (
        Call::Regular(0x8000_0000_0000_0001),
        Some(0x8000_0000_0000_0001),
    ),
    (
        Call::Regular(0xffff_ffff_ffff_ffff),
        Some(0xffff_ffff_ffff_ffff),
    ),
    (
        Call::Half(0x7fff_ffff_ffff_ffff),
        Some(0x7fff_ffff_ffff_ffff),
    ),
    (Call::Half(0x8000_0000_0000_0000), None),
    (Call::Half(0xffff_ffff_ffff_ffff), None),
    (Call::Parent(1), Some(0)),
    (Call::Parent(2), Some(0)),
    (Call::Parent(3), Some(1)),
    (Call::Parent(4), Some(0)),
    (Call::Parent(5), Some(1)),
    (Call::Parent(6), Some(2)),
    (Call::Parent(7), Some(3)),
    (Call::BucketOf(14, 8), Some(6)),
    (Call::BucketOf(14, 0x8000_0000), Some(14)),
    (Call::BucketAt(0x1fff_ffff_ffff_ffff, 8), Some(0)),
    (Call::BucketAt(0x2000_0000_0000_0000, 8), Some(4)),
    (Call::BucketAt(0x7fff_ffff_ffff_ffff, 8), Some(6)),
    (Call::BucketAt(0xdfff_ffff_ffff_ffff, 8), Some(3)),
    (Call::BucketAt(0xffff_ffff_ffff_ffff, 8), Some(7)),
    (Call::BucketAt(0xffff_ffff_ffff_ffff, 2), Some(1)),
    (
        Call::BucketAt(0xffff_ffff_ffff_ffff, 0x8000_0000),
        Some(0x7fff_ffff),
    ),
    (
        Call::Reverse(0x0123_4567_89ab_cdef),
        Some(0xf7b3_d591_e6a2_c480),
    ),
    (Call::Reverse(1), Some(0x8000_0000_0000_0000)),
];

/// Makes each call of `ANSWERS`, and compares its answer with the wanted one.
fn answers_are(rt: &impl Abort) -> Result<(), Fail> {
    for (row, (call, wanted)) in ANSWERS.iter().enumerate() {
        assert!(rt; answer(*call)? == *wanted, "row {row}");
    }
    Ok(())
}

#[test]
fn numbers(rt: HostRuntime) -> Result<(), Fail> {
    answers_are(&rt)?;
    let words = format!(in rt.alloc(); "{BadKey}")?;
    assert!(rt; words.as_str() == "a key is a number below 2^63");
    Ok(())
}

/// The sort key of the key with this number.
fn at(number: u64) -> SortKey {
    SortKey::regular(Key::new(number))
}

#[test]
fn keys_of_one_split_key_in_their_order(rt: HostRuntime) {
    let high = at(0x8000_0000_0000_0001);
    assert_eq!(rt; at(1).split(), high.split());
    assert!(rt; at(1).is_before(high));
    assert!(rt; !high.is_before(at(1)));
    assert!(rt; high.is_before(at(5)));
    assert!(rt; SortKey::dummy(1).is_before(at(1)));
}
