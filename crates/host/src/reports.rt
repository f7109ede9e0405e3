// The answers as C gets them, by value: the number 0 and the values, or the number and block of the refusal and zeros.
// Of a level the block, which is always 0, is left out.
ghost use Rattle.std.specs.Prelude.{◌≡◌, ◌≤◌};
ghost use Rattle.base.specs.Answer.{outcome_of};
ghost use Rattle.base.specs.Refusal.{accepted};
ghost use Rattle.blocks.specs.Layout.{max_tiles};
ghost use Rattle.geometry.specs.Axes.{KnownAxes};
ghost use Rattle.level.specs.Level.{level_outcome};
ghost use Rattle.host.specs.Reports.{join_report, prune_report, stream_report, validate_report};
ghost use Rattle.host.specs.Reports.{write_report, level_report};

use base::Refusal;
use blocks::header::Header;
use join::call::Joined;
use level::call::LevelAnswer;
use prune::call::Pruned;

#[derive(Clone, Copy)]
#[repr(C)]
pub struct JoinReport {
    pub number: u32,
    pub block: u32,
    pub used: u32,
    pub tiles: u32,
    pub opened: u32,
    pub pruned: u32,
}

#[derive(Clone, Copy)]
#[repr(C)]
pub struct PruneReport {
    pub number: u32,
    pub block: u32,
    pub tiles: u32,
    pub pruned: u32,
}

#[derive(Clone, Copy)]
#[repr(C)]
pub struct StreamReport {
    pub number: u32,
    pub block: u32,
    pub tiles: u32,
}

#[derive(Clone, Copy)]
#[repr(C)]
pub struct ValidateReport {
    pub number: u32,
    pub block: u32,
    pub tiles: u32,
    pub axes: u32,
}

#[derive(Clone, Copy)]
#[repr(C)]
pub struct WriteReport {
    pub number: u32,
    pub block: u32,
    pub length: usize,
}

// `silent` is 1 for silence, which is no level: C has no Option.
#[derive(Clone, Copy)]
#[repr(C)]
pub struct LevelReport {
    pub number: u32,
    pub silent: u32,
    pub level: f64,
}

impl From<Result<Joined, Refusal>> for JoinReport {
    ghost from_gives = { λ answer report. report ≡ join_report (outcome_of answer) };

    fn from(answer: Result<Joined, Refusal>) -> JoinReport {
        match answer {
            Ok(joined) => JoinReport {
                number: 0,
                block: 0,
                used: joined.used,
                tiles: joined.tiles,
                opened: joined.opened,
                pruned: joined.pruned,
            },
            Err(refusal) => JoinReport {
                number: refusal.reason.number(),
                block: refusal.block,
                used: 0,
                tiles: 0,
                opened: 0,
                pruned: 0,
            },
        }
    }
}

impl From<Result<Pruned, Refusal>> for PruneReport {
    ghost from_gives = { λ answer report. report ≡ prune_report (outcome_of answer) };

    fn from(answer: Result<Pruned, Refusal>) -> PruneReport {
        match answer {
            Ok(pruned) => PruneReport {
                number: 0,
                block: 0,
                tiles: pruned.tiles,
                pruned: pruned.pruned,
            },
            Err(refusal) => PruneReport {
                number: refusal.reason.number(),
                block: refusal.block,
                tiles: 0,
                pruned: 0,
            },
        }
    }
}

// Of the sequence: T.
impl From<Result<u32, Refusal>> for StreamReport {
    ghost from_gives = { λ answer report. report ≡ stream_report (outcome_of answer) };

    fn from(answer: Result<u32, Refusal>) -> StreamReport {
        match answer {
            Ok(tiles) => StreamReport {
                number: 0,
                block: 0,
                tiles,
            },
            Err(refusal) => StreamReport {
                number: refusal.reason.number(),
                block: refusal.block,
                tiles: 0,
            },
        }
    }
}

// No `From`: that trait has no room for what this call requires, so that T and the axes fit 32 bits.
pub fn report_validate(answer: Result<Header, Refusal>) -> ValidateReport
    requires { (h : Header) → outcome_of answer ≡ accepted h → (h.tiles ≤ max_tiles) × KnownAxes h.axes }
    ensures { result ≡ validate_report (outcome_of answer) }
{
    match answer {
        Ok(h) => ValidateReport {
            number: 0,
            block: 0,
            tiles: h.tiles as u32,
            axes: h.axes as u32,
        },
        Err(refusal) => ValidateReport {
            number: refusal.reason.number(),
            block: refusal.block,
            tiles: 0,
            axes: 0,
        },
    }
}

// Of the writer: the file's length in bytes.
impl From<Result<usize, Refusal>> for WriteReport {
    ghost from_gives = { λ answer report. report ≡ write_report (outcome_of answer) };

    fn from(answer: Result<usize, Refusal>) -> WriteReport {
        match answer {
            Ok(length) => WriteReport {
                number: 0,
                block: 0,
                length,
            },
            Err(refusal) => WriteReport {
                number: refusal.reason.number(),
                block: refusal.block,
                length: 0,
            },
        }
    }
}

impl From<LevelAnswer> for LevelReport {
    ghost from_gives = { λ answer report. report ≡ level_report (level_outcome answer) };

    fn from(answer: LevelAnswer) -> LevelReport {
        match answer {
            LevelAnswer::Silent => LevelReport {
                number: 0,
                silent: 1,
                level: 0.0,
            },
            LevelAnswer::Level(level) => LevelReport {
                number: 0,
                silent: 0,
                level,
            },
            LevelAnswer::Refused(refusal) => LevelReport {
                number: refusal.reason.number(),
                silent: 0,
                level: 0.0,
            },
        }
    }
}
