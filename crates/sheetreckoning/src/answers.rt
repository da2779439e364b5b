// What a call on a sheet answers, with all that it tells.
ghost use Rattle.sheetreckoning.specs.Causes.{known, number_written};
ghost use Rattle.std.specs.Prelude.{◌≡◌};
ghost use Rattle.table.specs.Refusals.{number_of};

use bounds::response::Unsettled;
use sheet::refused::{Layer, NotOrdered, NotPassing, Stopped};
use table::refusal::Refusal;

pub(crate) type Answer = Result<Told, Refused>;

// Why a call is refused.
// Told again here: the model shares no refusal with the sheet.
#[derive(Clone, Copy, PartialEq, Eq)]
pub(crate) enum Cause {
    FileLength,
    BlockCheck,
    BlockNumber,
    BlockLayout,
    FigureLimits,
    NumberTooLarge,
    NumberOccupied,
    NumberEmpty,
    CoreLacking,
    RankUnavailable,
    NoOrder,
    NoBound,
    BufferTooShort,
    // Any other refusal, which no model answers.
    Unknown,
    // No end was found in the rounds that were tried: equal to nothing that a sheet answers.
    Open,
}

impl Cause {
    // The number of the refusal, or 0 where it is none of the model's.
    pub(crate) fn number(self) -> u8
        ensures { result ≡ number_written self }
    {
        match self {
            Cause::FileLength => 2,
            Cause::BlockCheck => 3,
            Cause::BlockNumber => 4,
            Cause::BlockLayout => 5,
            Cause::FigureLimits => 6,
            Cause::NumberTooLarge => 7,
            Cause::NumberOccupied => 8,
            Cause::NumberEmpty => 9,
            Cause::CoreLacking => 10,
            Cause::RankUnavailable => 11,
            Cause::NoOrder => 12,
            Cause::NoBound => 13,
            Cause::BufferTooShort => 14,
            Cause::Unknown | Cause::Open => 0,
        }
    }
}

// By its number alone, so that the two are compared by what people are told.
impl From<Refusal> for Cause {
    ghost from_gives = { λ refusal cause. number_written cause ≡ known (number_of refusal) };

    fn from(refusal: Refusal) -> Cause {
        match refusal.number() {
            2 => Cause::FileLength,
            3 => Cause::BlockCheck,
            4 => Cause::BlockNumber,
            5 => Cause::BlockLayout,
            6 => Cause::FigureLimits,
            7 => Cause::NumberTooLarge,
            8 => Cause::NumberOccupied,
            9 => Cause::NumberEmpty,
            10 => Cause::CoreLacking,
            11 => Cause::RankUnavailable,
            12 => Cause::NoOrder,
            13 => Cause::NoBound,
            14 => Cause::BufferTooShort,
            _ => Cause::Unknown,
        }
    }
}

// What is told where the call is accepted.
#[derive(Clone, Copy, PartialEq, Eq)]
pub(crate) enum Told {
    Nothing,
    // A bound, a round or the trials.
    Number(u32),
    // The records that a load entered.
    Entered(usize),
}

// Where a load met its refusal.
#[derive(Clone, Copy, PartialEq, Eq)]
pub(crate) enum Part {
    Block,
    Figures,
    Sheet,
}

// What is told of a refusal.
#[derive(Clone, Copy, PartialEq, Eq)]
pub(crate) enum Detail {
    Nothing,
    // The task without a bound.
    Unbound(usize),
    // The trials, and the tasks that are still unplaced.
    Unplaced {
        trials: u32,
        unplaced: usize,
    },
    // The task without a bound, and the round.
    Unsettled {
        task: usize,
        round: u32,
    },
    // Where a load stopped, and the records that were entered before.
    Stopped {
        part: Part,
        block: usize,
        record: usize,
        entered: usize,
    },
}

#[derive(Clone, Copy, PartialEq, Eq)]
pub(crate) struct Refused {
    pub(crate) cause: Cause,
    pub(crate) detail: Detail,
}

impl From<()> for Told {
    fn from(_nothing: ()) -> Told {
        Told::Nothing
    }
}

impl From<u32> for Told {
    fn from(number: u32) -> Told {
        Told::Number(number)
    }
}

impl From<usize> for Told {
    fn from(entered: usize) -> Told {
        Told::Entered(entered)
    }
}

impl From<Layer> for Part {
    fn from(layer: Layer) -> Part {
        match layer {
            Layer::Block => Part::Block,
            Layer::Row => Part::Figures,
            Layer::Sheet => Part::Sheet,
        }
    }
}

impl From<Cause> for Refused {
    fn from(cause: Cause) -> Refused {
        Refused {
            cause,
            detail: Detail::Nothing,
        }
    }
}

impl From<Refusal> for Refused {
    fn from(refusal: Refusal) -> Refused {
        Refused::from(Cause::from(refusal))
    }
}

impl From<Stopped> for Refused {
    fn from(stopped: Stopped) -> Refused {
        Refused {
            cause: Cause::from(stopped.cause),
            detail: Detail::Stopped {
                part: Part::from(stopped.layer),
                block: usize::from(stopped.block),
                record: usize::from(stopped.record),
                entered: stopped.entered,
            },
        }
    }
}

impl From<NotPassing> for Refused {
    fn from(refused: NotPassing) -> Refused {
        let detail = match refused {
            NotPassing::CoreLacking => Detail::Nothing,
            NotPassing::NoBound(task) => Detail::Unbound(task),
        };
        Refused {
            cause: Cause::from(refused.refusal()),
            detail,
        }
    }
}

impl From<NotOrdered> for Refused {
    fn from(refused: NotOrdered) -> Refused {
        let detail = match refused {
            NotOrdered::CoreLacking => Detail::Nothing,
            NotOrdered::NoOrder(none) => Detail::Unplaced {
                trials: none.trials,
                unplaced: none.unplaced,
            },
        };
        Refused {
            cause: Cause::from(refused.refusal()),
            detail,
        }
    }
}

impl From<Unsettled> for Refused {
    fn from(refused: Unsettled) -> Refused {
        let detail = match refused {
            Unsettled::TooShort => Detail::Nothing,
            Unsettled::NoBound(none) => Detail::Unsettled {
                task: none.task,
                round: none.round,
            },
        };
        Refused {
            cause: Cause::from(refused.refusal()),
            detail,
        }
    }
}

// What a sheet or its model answers, in the words that are compared.
pub(crate) fn as_answer<T: Into<Told>, E: Into<Refused>>(answer: Result<T, E>) -> Answer {
    answer
        .map(|told| told.into())
        .map_err(|refused| refused.into())
}
