// What stands after the offset in the line of a skipped byte.
ghost use Rattle.std.specs.Prelude.{◌≡◌, ◌≤◌, ◌++◌, ◌∷◌, [], length, codes};
ghost use Rattle.mav_text.specs.FrameText.{why_text};

use mav_frame::Why;
use std::marker::Model;

/// What stands after the offset of a line, with `00` in place of the byte's digits.
#[derive(Drop)]
pub(crate) struct SkipEnding {
    pub(crate) bytes: [u8; 24],
    pub(crate) len: usize,
}

impl Model for SkipEnding {
    ghost use Rattle.std.specs.Prelude.{List, ℕ, ◌≤◌, take};

    ghost Value = { List ℕ };

    ghost view = { λ t. take t.len t.bytes };

    ghost invariant = { λ t. t.len ≤ 22 };
}

impl SkipEnding {
    pub(crate) fn of(why: Why) -> SkipEnding
        ensures text { result ≡ codes " skip 00 " ++ why_text why ++ 10 ∷ [] }
        ensures digits { 8 ≤ length result }
    {
        match why {
            Why::NotStx => SkipEnding {
                bytes: *b" skip 00 not-stx\n       ",
                len: 17,
            },
            Why::UnknownFlag => SkipEnding {
                bytes: *b" skip 00 unknown-flag\n  ",
                len: 22,
            },
            Why::UnknownId => SkipEnding {
                bytes: *b" skip 00 unknown-id\n    ",
                len: 20,
            },
            Why::BadCheck => SkipEnding {
                bytes: *b" skip 00 bad-check\n     ",
                len: 19,
            },
            Why::Short => SkipEnding {
                bytes: *b" skip 00 short\n         ",
                len: 15,
            },
        }
    }
}
