use xl_base::{Secs, Seq};
use xl_closetime::{Choice, choose_close, effective, needed, next_resolution, round_close};

const LAST: Secs = Secs::MAX;

/// A close time, a resolution and the prior close time, and then the rounded and the effective one.
const ROUNDED: [(Secs, u8, Secs, Secs, Secs); 9] = [
    (14, 30, 0, 0, 1),
    (15, 30, 0, 30, 30),
    (44, 30, 0, 30, 30),
    (45, 30, 0, 60, 60),
    (45, 30, 60, 60, 61),
    (4, 10, 100, 0, 101),
    (0, 120, 100, 0, 0),
    (LAST, 10, 0, LAST, LAST),
    (1, 10, LAST, 0, LAST),
];

#[test]
fn rounds_after_the_prior_close(rt: HostRuntime) {
    for (close, resolution, prior, rounded, after) in ROUNDED {
        assert_eq!(rt; round_close(close, resolution), rounded);
        assert_eq!(rt; effective(close, resolution, prior), after);
    }
}

/// A parent's resolution, whether its close time was agreed on, a sequence, and the sequence's resolution.
const RESOLUTIONS: [(u8, bool, Seq, u8); 8] = [
    (30, true, 8, 20),
    (30, true, 9, 30),
    (30, false, 8, 60),
    (60, false, 9, 90),
    (90, true, 16, 60),
    (120, true, 24, 90),
    (120, false, 9, 120),
    (10, true, 8, 10),
];

#[test]
fn coarser_without_agreement_and_finer_at_each_eighth(rt: HostRuntime) {
    for (parent, agreed, seq, resolution) in RESOLUTIONS {
        assert_eq!(rt; next_resolution(parent, agreed, seq), resolution);
    }
}

#[test]
fn needs_a_percent_rounded(rt: HostRuntime) {
    for (p, percent, count) in [
        (7, 75, 5),
        (7, 50, 3),
        (1, 50, 1),
        (4, 75, 3),
        (0, 95, 1),
        (65, 95, 62),
    ] {
        assert_eq!(rt; needed(p, percent), count);
    }
}

/// Members' close times, our own, whether we propose, the percent, and the choice at resolution 30.
const CHOICES: [(&[Secs], Secs, bool, u32, Secs, bool); 10] = [
    (&[30, 30, 60, 60], 30, false, 50, 60, false),
    (&[30, 30, 60, 60], 30, true, 50, 30, false),
    (&[44, 31, 29, 60], 100, false, 50, 30, true),
    (&[], 44, false, 50, 30, true),
    (&[], 14, true, 95, 0, true),
    (&[30, 60, 90, 120], 150, true, 65, 0, false),
    (&[14, 0, 1, 60], 60, false, 50, 0, true),
    (&[14, 0, 1, 60], 60, false, 95, 0, false),
    (&[90, 60, 30, 60, 90], 30, false, 50, 90, false),
    (&[90, 60, 30, 60, 90], 30, true, 25, 90, false),
];

#[test]
fn chooses_the_last_of_the_most_frequent(rt: HostRuntime) {
    for (times, own, proposing, percent, close, agreed) in CHOICES {
        assert_eq!(rt;
            choose_close(times, own, proposing, percent, 30),
            Choice { close, agreed }
        );
    }
}
