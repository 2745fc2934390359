use std::test::Fail;
use xl_base::NodeNo;
use xl_lists::{List, bound, default_quorum, enough, overlap, slack};

#[test]
fn takes_four_fifths_rounded_up(rt: HostRuntime) {
    for (n, quorum) in [(1, 1), (5, 4), (7, 6), (35, 28), (64, 52)] {
        assert_eq!(rt; default_quorum(n), quorum);
    }
}

#[test]
fn counts_the_overlap_and_its_liars(rt: HostRuntime) -> Result<(), Fail> {
    let list = List::new(&[1, 2, 3, 4, 5], 4)?;
    // The first of the five members of another list, a liar (64 is on neither list); and then what is told.
    let cases = [
        (1, 64, 5, 5, 3),
        (3, 64, 3, 7, 1),
        (3, 3, 3, 8, 0),
        (3, 1, 3, 7, 1),
        (4, 64, 2, 8, 0),
        (6, 64, 0, 10, -2),
    ];
    for (first, liar, shared, limit, left) in cases {
        let other = List::new(&[first, first + 1, first + 2, first + 3, first + 4], 4)?;
        // Named twice, a liar counts once.
        let liars = [NodeNo::new(liar).ok_or(liar)?; 2];
        assert_eq!(rt; overlap(&list, &other), shared);
        assert_eq!(rt; bound(&list, &other, &liars), limit);
        assert_eq!(rt; slack(&list, &other, &liars), left);
        assert_eq!(rt; enough(&list, &other, &liars), left > 0);
    }
    Ok(())
}
