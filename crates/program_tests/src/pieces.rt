//! Tests of `piece_files` on a kind of file that only this module has: drawings, which have at most
//! three points. Four points are over that limit, so no text here is long. The expected contents,
//! faults and elements were worked out by hand.

ghost use Rattle.std.specs.Prelude.{◌==◌, false, not};
ghost use Rattle.piece_files.specs.Elements.{two_of};

use crate::devices::filled;
use arrayvec::ArrayVec;
use json::{Reader, Scratch, Token};
use piece_files::{
    FileFault, Flat, FlatKind, Part, Plain, elements_at, end_in, number_in, one_in, optional_in,
    pass_value, pieces_at, pieces_in, plain_elements, read_file, two_in, whole_array, word_in,
};
use std::alloc::{AllocError, Global};
use std::process::Abort;
use std::test::Fail;

/// Points of two numbers each. A file has at most three points. Version 1 has no points whose
/// second number is 0.
struct PointKind;

impl FlatKind for PointKind {
    ghost use Rattle.piece_files.specs.declared.part.Part.TheVariants as parts;

    type Piece = (u64, u64);

    ghost of = { two_of };

    ghost is_old = { λ point. not (point.1 == 0) };

    ghost part = { parts.Entry };

    ghost most = { 3 };

    fn part() -> Part {
        Part::Entry
    }

    fn is_old(piece: &(u64, u64)) -> bool {
        piece.1 != 0
    }

    fn most() -> usize {
        3
    }

    fn of(elements: &[Plain<'_>]) -> Option<(u64, u64)> {
        two_in(elements)
    }

    #[tactic(auto, using(piece_files::proofs::PlainElements::no_two))]
    fn others_make_none() {}
}

/// Similar drawings of width 7: texts, versions, and the points of each drawing, or the fault if the
/// drawings are refused. There is one drawing for each line of the texts and each word of the
/// versions, which replaces each gap `@`. Each `#` in a text stands for a line feed.
type Drawings = (
    &'static str,
    &'static str,
    Result<&'static [(u64, u64)], FileFault>,
);

/// The width and the points of a drawing.
fn drawing_in(alloc: Global, text: &str) -> Result<(u64, Vec<(u64, u64)>), FileFault> {
    let (_version, [width], points) = read_file::<Flat<PointKind>, 1>(
        alloc,
        text.as_bytes(),
        &["width"],
        "points",
    )?;
    Ok((width, points))
}

/// Each row has similar drawings, with their content or their fault. The last rows have points that
/// version 1 does not allow. In version 1, such a point is a wrong piece, even if it comes after
/// more than three points. In version 2 it is not a wrong piece, nor in version 4, which is not a
/// supported version.
const DRAWINGS: &[Drawings] = &[
    (r#"{"version":1,"width":7,"points":[]}"#, "", Ok(&[])),
    (
        r#" {"points":[[1,2],[3,4]],#"width":7,"version":1} #
{"x":[[1e5],{"width":8}],"width":7,"version":1,"points":[[1,2],[3,4]],"":null}
{"points":0,"width":8,"version":2,"width":7,"version":1,"points":[[1,2],[3,4]]}
{"version":1,"width":7,"points":[ [ 1 , 2 ] ,[3,4] ] } #"#,
        "",
        Ok(&[(1, 2), (3, 4)]),
    ),
    (
        "{\r#\t\"version\": 1,#\t\"width\": 7,#\t\"points\": [#\t\t[1,#\t\t2]#\t]#}#
{\"version\":1,\"wi\\u0064th\":7,\"points\":[[1,2]]}",
        "",
        Ok(&[(1, 2)]),
    ),
    (
        r#"{"version":1,"width":8,"points":[[1,2]],"width":7,"note":"é","points":[[3,4]]}"#,
        "",
        Ok(&[(3, 4)]),
    ),
    (
        r#"{"version":1,"width":7,"points":[[1,2],[3,4],[5,6]]}"#,
        "",
        Ok(&[(1, 2), (3, 4), (5, 6)]),
    ),
    (
        r#"{"version":1,"width":7,"points":[[18446744073709551615,9999999999999999999]]}"#,
        "",
        Ok(&[(18_446_744_073_709_551_615, 9_999_999_999_999_999_999)]),
    ),
    (
        r#"
{"version":1,"width":7,"points":[[0,0000000000000000000]]}
{"version":1,"width":7,"points":[[1,02]]}
{"version":1,"width":7,"points":[[1,2],]}
{"version":1,"width":7,"points":[[1,2]],}
{"version":1,"width":7,"points":[[1,2]]}}
{"version":1,"width":7"points":[[1,2]]}
{"version":1,"width":7,"points":[[1 2]]}
{"version":1,"width":7,"points":[[1,2]] #
{"version":1,"width":7,"points":[[1,2],[1,nul]]}
{"version":1,"width":7,"points":[[1,2]}
{"version":1,"width":7,"points":[]} 7
{"version":1,"width":7,"points":[],"x":1e999}"#,
        "",
        Err(FileFault::NotJson),
    ),
    (
        r#"7
[]
{"version":1,"width":null,"points":[[1,2]]}
{"version":1,"width":7,"points":"[[1,2]]"}
{"width":7,"points":[]}
{"version":1,"points":[]}
{"version":1,"width":-7,"points":[]}
{"version":1,"width":7}
{"version":1,"width":7,"points":[],"points":{}}"#,
        "",
        Err(FileFault::Member),
    ),
    (
        r#"{"version":1,"width":7,"points":[[1,18446744073709551616]]}
{"version":2,"width":7,"points":[0,[1,2]]}"#,
        "",
        Err(FileFault::Piece(Part::Entry, 0)),
    ),
    (
        r#"{"version":1,"width":7,"points":[[1,2],[1,2,3]]}
{"version":1,"width":7,"points":[[1,2],[3,0]]}
{"version":1,"width":7,"points":[[1,2],[3,0],[4],[5,0]]}"#,
        "",
        Err(FileFault::Piece(Part::Entry, 1)),
    ),
    (
        r#"{"version":1,"width":7,"points":[[1,2],[1,2],[1,2],[1,2],[1,2,3],[]]}
{"version":1,"width":7,"points":[[1,2],[1,2],[1,2],[1,2],[3,0]]}"#,
        "",
        Err(FileFault::Piece(Part::Entry, 4)),
    ),
    (
        r#"{"version":1,"width":7,"points":[[1,2],[3,4],[5,6],[7,8]]}
{"version":4,"width":7,"points":[]}
{"version":0,"width":7,"points":[]}
{"version":4,"width":7,"points":[[1,2],[3,0]]}"#,
        "",
        Err(FileFault::Limit),
    ),
    (
        r#"{"points":[[1,2],[3,0]],"version":@,"width":7}"#,
        "2",
        Ok(&[(1, 2), (3, 0)]),
    ),
    (
        r#"{"points":[[1,2],[3,0],[4],[5,0]],"version":@,"width":7}"#,
        "2 4",
        Err(FileFault::Piece(Part::Entry, 2)),
    ),
    (
        r#"{"points":[[1,2],[4],[3,0]],"version":@,"width":7}"#,
        "1 2 4",
        Err(FileFault::Piece(Part::Entry, 1)),
    ),
    (
        r#"{"points":[[1,2],[1,2],[1,2],[1,2],[3,0]],"version":@,"width":7}"#,
        "2 4",
        Err(FileFault::Limit),
    ),
];

/// Returns true if the drawing with this text has width 7 and these points, or has this fault.
fn has_content(
    alloc: Global,
    text: &str,
    content: Result<&'static [(u64, u64)], FileFault>,
) -> bool {
    match drawing_in(alloc, text) {
        Ok((width, points)) => width == 7 && content == Ok(points.as_slice()),
        Err(fault) => content == Err(fault),
    }
}

/// Compares the points or the fault of each of these drawings.
fn compare(rt: &impl Abort, alloc: Global, drawings: Drawings) -> Result<(), Fail> {
    let (texts, versions, content) = drawings;
    for text in texts.split('\n') {
        for version in versions.split(' ') {
            let text = filled(alloc, text, "\n", version)?;
            assert!(rt; has_content(alloc, &text, content), "{text}");
        }
    }
    Ok(())
}

#[test]
fn contents_of_drawings(rt: HostRuntime) -> Result<(), Fail> {
    for drawings in DRAWINGS {
        compare(&rt, rt.alloc(), *drawings)?;
    }
    Ok(())
}

/// The beginning of an array: its text, its number, and how many elements follow them. It is `None`
/// if the array does not begin with a text and a number.
type Leading = Option<(&'static str, u64, usize)>;

/// Elements that are read in four ways: as one number, as two numbers, as one number or null, and
/// as no elements. A result is `None` if the elements cannot be read in this way.
type Shapes = (
    Option<u64>,
    Option<(u64, u64)>,
    Option<Option<u64>>,
    Option<()>,
);

/// Each row has an array, the text and the number with which it begins, and the shapes of its other
/// elements. If the array has no such beginning, the row has the shapes of all its elements.
const ELEMENTS: &[(&str, Leading, Shapes)] = &[
    (
        r#"["put",1,9999999999999999999,null]"#,
        Some(("put", 1, 2)),
        (None, None, None, None),
    ),
    ("[8,9]", None, (None, Some((8, 9)), None, None)),
    ("[9]", None, (Some(9), None, Some(Some(9)), None)),
    ("[null]", None, (None, None, Some(None), None)),
    (
        r#"["save",0]"#,
        Some(("save", 0, 0)),
        (None, None, None, Some(())),
    ),
];

/// Returns the text and the number with which the elements begin, and the elements that follow.
/// Returns `None` if the elements begin otherwise.
fn leading_in<'v, 'a>(values: &'v [Plain<'a>]) -> Option<(&'a str, u64, &'v [Plain<'a>])> {
    let (name, rest) = word_in(values)?;
    let (number, rest) = number_in(rest)?;
    Some((name, number, rest))
}

/// Reads these elements in each of the four ways of `Shapes`.
fn shapes_of(values: &[Plain<'_>]) -> Shapes {
    (
        one_in(values),
        two_in(values),
        optional_in(values),
        end_in(values),
    )
}

/// Reads an array of at most four plain elements, and compares its elements with `leading` and
/// `shapes`.
fn compare_elements(rt: &impl Abort, text: &str, leading: Leading, shapes: Shapes) {
    let mut elements = ArrayVec::<Plain<'_>, 4>::new();
    assert!(rt; whole_array(text, &mut elements), "{text}");
    match leading_in(&elements) {
        Some((name, number, rest)) => {
            assert!(rt; leading == Some((name, number, rest.len())));
            assert!(rt; shapes_of(rest) == shapes, "{text}");
        }
        None => assert!(rt;
            leading.is_none() && shapes_of(&elements) == shapes,
            "{text}"
        ),
    }
}

#[test]
fn elements(rt: HostRuntime) {
    for (text, leading, shapes) in ELEMENTS {
        compare_elements(&rt, text, *leading, *shapes);
    }
    let mut elements = ArrayVec::<Plain<'_>, 2>::new();
    assert!(rt; !whole_array("[1,2],3", &mut elements));
}

/// Takes the bracket that opens an array.
fn begin(reader: &mut Reader<'_>) -> bool {
    matches!(reader.next(), Some(Token::BeginArray))
}

/// Skips the next value.
fn pass(reader: &mut Reader<'_>) -> Result<(), Fail> {
    let token = reader.next().ok_or("no value")?;
    pass_value(token, reader, 2).map_err(|_| "no JSON")?;
    Ok(())
}

/// Reads the next array. Returns its points, their number, and true if all its elements are points.
fn next_points(
    alloc: Global,
    reader: &mut Reader<'_>,
) -> Result<(Vec<(u64, u64)>, usize, bool), Fail> {
    if !begin(reader) {
        return Err("no array")?;
    }
    let found = pieces_in::<Flat<PointKind>>(alloc, reader, 1)?;
    Ok((found.pieces, found.count, found.are_all))
}

/// Checks that the next array has exactly the points (1, 2) and (3, 4), and an element that is not
/// a point.
fn compare_points(rt: &impl Abort, alloc: Global, reader: &mut Reader<'_>) -> Result<(), Fail> {
    let (points, count, are_all) = next_points(alloc, reader)?;
    assert!(rt; points.as_slice() == [(1, 2), (3, 4)].as_slice());
    assert!(rt; count == 2 && !are_all);
    Ok(())
}

/// Reads an array with two values. Skips the first value, and checks the points of the second one.
fn compare_row(rt: &impl Abort, alloc: Global, reader: &mut Reader<'_>) -> Result<(), Fail> {
    assert!(rt; begin(reader));
    pass(reader)?;
    compare_points(rt, alloc, reader)
}

#[test]
fn values_in_a_row(rt: HostRuntime) -> Result<(), Fail> {
    let mut scratch = Scratch::new(rt.alloc());
    let mut reader = Reader::new(r#"[{"x":[1,-2.5]},[[1,2],[3,4],0]]"#, &mut scratch)?;
    compare_row(&rt, rt.alloc(), &mut reader)
}

/// Each row has a text that follows the opening bracket of an array, and the place just after the
/// closing bracket. The place is `None` if the text is not the rest of an array of one or two plain
/// elements.
const PLAIN: &[(&str, Option<usize>)] = &[
    ("1,2],3", Some(4)),
    ("null]", Some(5)),
    ("1,2,3]", None),
    ("1,2", None),
    ("]", None),
];

#[test]
fn elements_in_plain_form(rt: HostRuntime) {
    let mut elements = ArrayVec::<Plain<'_>, 2>::new();
    for (text, end) in PLAIN {
        assert!(rt; elements_at(text, 0, &mut elements) == *end, "{text}");
    }
}

#[test]
fn pieces_in_plain_form(rt: HostRuntime) -> Result<(), Fail> {
    let mut at = 0;
    let found = pieces_at::<Flat<PointKind>>(rt.alloc(), "[1,2],[3,4]],5", &mut at, 1)?.ok_or(
        "not plain",
    )?;
    assert!(rt; at == 12);
    assert!(rt; found.pieces.as_slice() == [(1, 2), (3, 4)].as_slice());
    assert!(rt; found.count == 2 && found.are_all);
    Ok(())
}

/// The text of a fault.
fn words_of(alloc: Global, fault: FileFault) -> Result<String, Fail> {
    Ok(fault.to_string(alloc)?)
}

const WORDS: &[(FileFault, &str)] = &[
    (FileFault::NotJson, "20"),
    (FileFault::Member, "21"),
    (FileFault::Piece(Part::Step, 4), "21 step 4"),
    (FileFault::Piece(Part::Script, 0), "21 script 0"),
    (FileFault::Piece(Part::Entry, 10), "21 entry 10"),
    (FileFault::Limit, "22"),
    (FileFault::NoMemory, "14"),
];

/// Checks that a fault has this text.
fn has_words(rt: &impl Abort, alloc: Global, fault: FileFault, wanted: &str) -> Result<(), Fail> {
    let words = words_of(alloc, fault)?;
    assert!(rt; words.as_str() == wanted, "{words} for {wanted}");
    Ok(())
}

#[test]
fn words_of_faults(rt: HostRuntime) -> Result<(), Fail> {
    for (fault, wanted) in WORDS {
        has_words(&rt, rt.alloc(), *fault, wanted)?;
    }
    Ok(())
}
