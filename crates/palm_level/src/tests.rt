// When a parent stays as it is, and how many children are few.
use super::plan::all_stand_alone;
use super::task::is_few;
use palm_node::{Change, NodeId, Path, Piece, PieceList};
use std::alloc::Global;
use std::test::Fail;

fn piece(place: usize) -> Piece {
    Piece {
        low: 0,
        id: NodeId { place },
    }
}

// The change of the node 1, for which the nodes at these places stand.
fn change(alloc: Global, places: &[usize]) -> Result<Change, Fail> {
    let mut pieces = PieceList::new(alloc);
    for place in places {
        pieces.push(piece(*place))?;
    }
    Ok(Change {
        node: NodeId { place: 1 },
        path: Path::new(),
        pieces,
    })
}

// A node is made anew where a child is gone, became two, or gave way to another, and not where each stands for itself.
#[test]
fn stays_where_each_child_stands_alone(rt: HostRuntime) -> Result<(), Fail> {
    let cases: [(&[usize], bool); 5] = [
        (&[1], true),
        (&[], false),
        (&[2], false),
        (&[1, 2], false),
        (&[2, 1], false),
    ];
    for (places, stays) in cases {
        let mut changes = Vec::new(rt.alloc());
        changes.push(change(rt.alloc(), &[1])?)?;
        assert!(rt; all_stand_alone(&changes));
        changes.push(change(rt.alloc(), places)?)?;
        assert_eq!(rt; all_stand_alone(&changes), stays);
    }
    Ok(())
}

#[test]
fn few_children_are_one_to_seven(rt: HostRuntime) -> Result<(), Fail> {
    let mut children = Vec::new(rt.alloc());
    for count in 0..18 {
        assert_eq!(rt; is_few(&children), 0 < count && count < 8, "of {count}");
        children.push(piece(count))?;
    }
    Ok(())
}
