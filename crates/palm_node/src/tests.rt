// Cuts, leaves, inner nodes and paths at chosen values, and how wide nodes are.
ghost use Rattle.std.specs.Prelude.{◌≤◌};
ghost use Rattle.std.specs.List.Sorted.{IsStrictlyIncreasing};
ghost use Rattle.palm_base.specs.Table.{IsTable};

use super::*;
use palm_base::{Amount, Digits, MOST_CHILDREN, MOST_LEAF_ROWS, Row, RowList};
use std::alloc::Global;
use std::mem::size_of;
use std::process::Abort;
use std::test::Fail;

// The width that the cut is tried at.
const WIDTH: usize = 16;

// The prefixes of a full leaf, in order.
const PREFIXES: [&str; MOST_LEAF_ROWS] = [
    "1", "10", "100", "12", "19", "2", "20", "3", "35", "4", "44", "441", "45", "5", "9", "99",
];

// The separators of a full inner node, in order.
const SEPARATORS: [u64; MOST_CHILDREN - 1] = [
    10, 20, 30, 40, 50, 60, 70, 80, 90, 100, 110, 120, 130, 140, 150,
];

fn row(rt: &impl Abort, prefix: &str, rate: u64) -> Row {
    Row {
        prefix: Digits::read(prefix.as_bytes()).expect(rt, "a prefix"),
        rate: Amount::new(rate).expect(rt, "a rate"),
    }
}

// The rows of a full leaf: those of the prefixes, at the rates 100, 101 and so on.
fn full_rows(rt: &impl Abort, alloc: Global) -> Result<Vec<Row>, Fail> {
    let mut rows = Vec::new(alloc);
    for (i, prefix) in PREFIXES.iter().enumerate() {
        rows.push(row(rt, prefix, 100 + i as u64))?;
    }
    Ok(rows)
}

fn assert_rise(rt: &impl Abort, rows: &[Row])
    ensures { IsTable rows.now }
{
    for i in 1..rows.len() {
        assert!(rt; rows[i - 1].prefix.key() < rows[i].prefix.key());
    }
}

fn leaf_of(rt: &impl Abort, rows: &[Row]) -> Leaf {
    assert!(rt; rows.len() <= MOST_LEAF_ROWS);
    assert_rise(rt, rows);
    Leaf::from_rows(rows)
}

// The first `count` rows are the leaf's, and the others aren't.
fn assert_holds(rt: &impl Abort, leaf: &Leaf, rows: &[Row], count: usize) {
    assert_eq!(rt; leaf.len(), count);
    assert_eq!(rt; leaf.is_empty(), count == 0);
    for (i, row) in rows.iter().enumerate() {
        let key = row.prefix.key();
        if i < leaf.len() {
            assert!(rt; leaf.row(i) == *row);
            assert!(rt; leaf.get(key) == Some(row.rate));
        } else {
            assert!(rt; leaf.get(key).is_none());
        }
        // the prefix with zeros up to the longest, which has no row
        assert!(rt; leaf.get(key | 15).is_none(), "between");
    }
    assert!(rt; leaf.get(0).is_none(), "below");
    assert!(rt; leaf.get(u64::MAX).is_none(), "beyond");
}

// A list of `t` items is cut into pieces of these sizes.
fn assert_cut(rt: &impl Abort, t: usize, sizes: &[usize]) {
    assert_eq!(rt; pieces(WIDTH, t), sizes.len());
    for (i, size) in sizes.iter().enumerate() {
        assert!(rt; i < pieces(WIDTH, t));
        assert_eq!(rt; piece_size(WIDTH, t, i), *size, "of {t} at {i}");
    }
}

#[test]
fn cuts_evenly(rt: HostRuntime) {
    let cases: [(usize, &[usize]); 7] = [
        (0, &[]),
        (1, &[1]),
        (16, &[16]),
        (17, &[9, 8]),
        (32, &[16, 16]),
        (33, &[11, 11, 11]),
        (34, &[12, 11, 11]),
    ];
    for (t, sizes) in cases {
        assert_cut(&rt, t, sizes);
    }
}

#[test]
fn looks_up_leaves(rt: HostRuntime) -> Result<(), Fail> {
    let rows = full_rows(&rt, rt.alloc())?;
    for count in [0, 1, 8, 9, MOST_LEAF_ROWS] {
        assert!(rt; count <= rows.len());
        let leaf = leaf_of(&rt, &rows[..count]);
        assert_holds(&rt, &leaf, &rows, count);
    }
    Ok(())
}

#[test]
fn rows_are_put_in_or_written(rt: HostRuntime) -> Result<(), Fail> {
    let rows = full_rows(&rt, rt.alloc())?;
    let mut leaf = leaf_of(&rt, &[]);
    for turn in 0..MOST_LEAF_ROWS {
        // 7 and 16 have no common factor, so that each row comes once
        let place = turn * 7 % MOST_LEAF_ROWS;
        assert!(rt; leaf.len() < MOST_LEAF_ROWS && place < rows.len());
        leaf.put(rows[place]);
    }
    assert_holds(&rt, &leaf, &rows, MOST_LEAF_ROWS);
    assert!(rt; 9 <= rows.len());
    let mut short = leaf_of(&rt, &rows[..9]);
    let written = row(&rt, "19", 7);
    assert!(rt; short.len() < MOST_LEAF_ROWS);
    short.put(written);
    assert_eq!(rt; short.len(), 9);
    assert!(rt; short.get(written.prefix.key()) == Some(written.rate));
    Ok(())
}

#[test]
fn puts_other_rows_in_place(rt: HostRuntime) -> Result<(), Fail> {
    let rows = full_rows(&rt, rt.alloc())?;
    let mut leaf = leaf_of(&rt, &rows);
    assert!(rt; 9 <= rows.len());
    let few = &rows[..9];
    assert_rise(&rt, few);
    leaf.set_pairs(few);
    assert_holds(&rt, &leaf, &rows, 9);
    Ok(())
}

#[test]
fn appends_rows_to_others(rt: HostRuntime) -> Result<(), Fail> {
    let rows = full_rows(&rt, rt.alloc())?;
    assert!(rt; 9 <= rows.len());
    let leaf = leaf_of(&rt, &rows[..9]);
    let mut list = Vec::new(rt.alloc());
    leaf.append_rows(&mut list)?;
    leaf.append_rows(&mut list)?;
    assert!(rt; list.len() == 18);
    assert!(rt; list[..9] == rows[..9]);
    assert!(rt; list[9..] == rows[..9]);
    Ok(())
}

// The node of the first `count` children, which are at the places 200, 201 and so on, and the separators between them.
fn inner_of(rt: &impl Abort, alloc: Global, count: usize) -> Result<Inner, Fail> {
    let children = ids(alloc, 200)?;
    assert!(rt; 1 <= count && count <= children.len() && count <= MOST_CHILDREN);
    assert!(rt; count - 1 <= SEPARATORS.len());
    let seps = &SEPARATORS[..count - 1];
    assert_increase(rt, seps);
    Ok(Inner::from_children(&children[..count], seps))
}

// As many places from `first` on as an inner node has room for.
fn ids(alloc: Global, first: usize) -> Result<Vec<NodeId>, Fail>
    requires { first ≤ 1000 }
{
    let mut ids = Vec::new(alloc);
    for i in 0..MOST_CHILDREN {
        ids.push(NodeId { place: first + i })?;
    }
    Ok(ids)
}

fn assert_increase(rt: &impl Abort, seps: &[u64])
    ensures { IsStrictlyIncreasing seps.now }
{
    for i in 1..seps.len() {
        assert!(rt; seps[i - 1] < seps[i]);
    }
}

// Below the separator at a place the child to its left is asked, and from it on the one to its right, where the
// node has so many children.
fn assert_routes(rt: &impl Abort, inner: &Inner) {
    let last = inner.len() - 1;
    for (i, separator) in SEPARATORS.iter().enumerate() {
        assert_eq!(rt;
            inner.route(separator.saturating_sub(1)),
            i.min(last),
            "below"
        );
        assert_eq!(rt; inner.route(*separator), (i + 1).min(last), "at");
        assert_eq!(rt;
            inner.route(separator.saturating_add(1)),
            (i + 1).min(last),
            "above"
        );
    }
    assert_eq!(rt; inner.route(0), 0);
    assert_eq!(rt; inner.route(u64::MAX), last);
}

#[test]
fn routes_keys(rt: HostRuntime) -> Result<(), Fail> {
    for count in [1, 2, MOST_CHILDREN] {
        let inner = inner_of(&rt, rt.alloc(), count)?;
        assert_eq!(rt; inner.len(), count);
        assert_routes(&rt, &inner);
    }
    Ok(())
}

#[test]
fn puts_other_children_in_place(rt: HostRuntime) -> Result<(), Fail> {
    let mut inner = inner_of(&rt, rt.alloc(), 2)?;
    assert!(rt; inner.len() == 2);
    assert_eq!(rt; inner.child(1).place, 201);
    assert_eq!(rt; inner.separator(0), 10);
    assert_eq!(rt; inner.low_of_child(0, 3), 3);
    assert_eq!(rt; inner.low_of_child(1, 3), 10);
    let children = ids(rt.alloc(), 300)?;
    assert!(rt; 3 <= children.len());
    let seps = [7, 8];
    assert_increase(&rt, &seps);
    inner.set_children(&children[..3], &seps);
    assert!(rt; inner.len() == 3);
    assert_eq!(rt; inner.child(2).place, 302);
    assert_eq!(rt; inner.separator(1), 8);
    assert_eq!(rt; inner.route(7), 1);
    Ok(())
}

#[test]
fn keeps_paths(rt: HostRuntime) {
    let mut path = Path::new();
    assert!(rt; path.is_empty());
    let (root, below) = (NodeId { place: 4 }, NodeId { place: 9 });
    path.push(root, 3);
    path.push(below, 0);
    assert_eq!(rt; path.len(), 2);
    assert!(rt; path.get(0) == (root, 3));
    assert!(rt; path.get(1) == (below, 0));
    let copy = path.copy();
    assert!(rt; copy.len() == 2 && copy.get(1) == (below, 0));
    let mut other = path.front(1);
    assert_eq!(rt; other.len(), 1);
    other.push(below, 15);
    assert!(rt; other.get(0) == (root, 3) && other.get(1) == (below, 15));
}

#[test]
fn collects_changes(rt: HostRuntime) -> Result<(), Fail> {
    let node = NodeId { place: 4 };
    let piece = Piece { low: 0, id: node };
    let mut pieces = PieceList::new(rt.alloc());
    assert!(rt; pieces.is_empty());
    pieces.push(piece)?;
    assert_eq!(rt; pieces.len(), 1);
    assert!(rt; pieces.get(0) == piece);
    let mut nodes = ChangeList::new(rt.alloc());
    nodes.push(Change {
        node,
        path: Path::new(),
        pieces,
    })?;
    let changes = Changes {
        nodes,
        loose: RowList::new(rt.alloc()),
        removed: RemovedList::new(rt.alloc()),
    };
    for change in changes.nodes.as_slice() {
        assert!(rt; change.node == node);
        assert_eq!(rt; change.pieces.len(), 1);
    }
    Ok(())
}

#[test]
fn keeps_pieces_in_order_past_those_that_stand_in_the_list(rt: HostRuntime) -> Result<(), Fail> {
    let piece = |low: u64, place: usize| Piece {
        low,
        id: NodeId { place },
    };
    let all = [piece(0, 7), piece(20, 8), piece(30, 9)];
    let mut pieces = PieceList::new(rt.alloc());
    pieces.push(all[0])?;
    pieces.push(all[1])?;
    pieces.push(all[2])?;
    assert_eq!(rt; pieces.len(), 3);
    assert!(rt; pieces.get(2) == all[2]);
    assert!(rt; pieces.as_slice() == all.as_slice());
    let copy = pieces.try_copy()?;
    assert!(rt; copy.as_slice() == all.as_slice());
    let few = PieceList::from_vec(Vec::from_slice(rt.alloc(), &all[1..])?);
    assert!(rt; few.as_slice() == &all[1..]);
    Ok(())
}

#[test]
fn has_nodes_paths_and_lists_of_pieces_of_the_stated_widths(rt: HostRuntime) {
    assert_eq!(rt; size_of::<Leaf>(), 264);
    assert_eq!(rt; size_of::<Inner>(), 264);
    assert_eq!(rt; size_of::<Path>(), 152);
    assert_eq!(rt; size_of::<PieceList>(), 48);
}

#[test]
fn a_node_over_pieces_has_their_lows_between_them(rt: HostRuntime) -> Result<(), Fail> {
    let piece = |low: u64, place: usize| Piece {
        low,
        id: NodeId { place },
    };
    let inner = Inner::over(&[piece(3, 7), piece(20, 8), piece(30, 9)]);
    assert_eq!(rt; inner.len(), 3);
    assert!(rt; inner.child(0).place == 7 && inner.child(2).place == 9);
    assert_eq!(rt; inner.separator(0), 20);
    assert_eq!(rt; inner.separator(1), 30);
    assert_eq!(rt; inner.route(19), 0);
    assert_eq!(rt; inner.route(30), 2);
    Ok(())
}
