// Why a load, a judging or an ordering is refused, with what is told of it.
ghost use Rattle.sheet.specs.Loading.{stop};
ghost use Rattle.sheet.specs.Refused.{layer_of, layer_word, refusal_of_judge, refusal_of_order};
ghost use Rattle.sheet.specs.declared.refused.NotOrdered.TheVariants as not_ordered;
ghost use Rattle.std.specs.Prelude.{◌≡◌, Some};

use ordering::order::NoOrder;
use std::fmt;
use table::refusal::Refusal;

// Where a load met its refusal: in a block, in the figures of a row, or at the sheet.
#[derive(Clone, Copy, PartialEq, Eq, Debug)]
pub enum Layer {
    Block,
    Row,
    Sheet,
}

impl Layer {
    // The layer of a cause.
    pub fn of(cause: Refusal) -> Layer
        ensures answer { result ≡ layer_of cause }
    {
        match cause {
            Refusal::FileLength
            | Refusal::BlockCheck
            | Refusal::BlockNumber
            | Refusal::BlockLayout => Layer::Block,
            Refusal::FigureLimits => Layer::Row,
            _ => Layer::Sheet,
        }
    }
}

impl fmt::Display for Layer {
    ghost output = { λ layer. Some (layer_word layer) };

    fn fmt<W: fmt::Write>(&self, f: &mut fmt::Formatter<W>) -> fmt::Result {
        f.write_str(match self {
            Layer::Block => "block",
            Layer::Row => "row",
            Layer::Sheet => "sheet",
        })
    }
}

// Where and why a load stopped. Blocks and the records of a block count from 0; either is 0 where
// it does not apply.
#[derive(Clone, Copy, PartialEq, Eq, Debug)]
pub struct Stopped {
    pub layer: Layer,
    pub cause: Refusal,
    pub block: u8,
    pub record: u8,
    // The records that were entered before.
    pub entered: usize,
}

impl Stopped {
    // A stop at a record of a block, or at the block itself, after some records were entered.
    pub(crate) fn at(cause: Refusal, block: u8, record: u8, entered: usize) -> Stopped
        ensures { result ≡ stop cause block «record» entered }
    {
        Stopped {
            layer: Layer::of(cause),
            cause,
            block,
            record,
            entered,
        }
    }
}

// Why a judging is refused.
#[derive(Clone, Copy, PartialEq, Eq, Debug)]
pub enum NotPassing {
    CoreLacking,
    // The task of highest rank without a bound.
    NoBound(usize),
}

impl NotPassing {
    // The refusal that it is.
    pub fn refusal(&self) -> Refusal
        ensures answer { result ≡ refusal_of_judge self.now }
    {
        match self {
            NotPassing::CoreLacking => Refusal::CoreLacking,
            NotPassing::NoBound(_) => Refusal::NoBound,
        }
    }
}

// Why an ordering is refused.
#[derive(Clone, Copy, PartialEq, Eq, Debug)]
pub enum NotOrdered {
    CoreLacking,
    // The trials, and how many tasks are still unplaced.
    NoOrder(NoOrder),
}

impl From<NoOrder> for NotOrdered {
    ghost from_gives = { λ none told. told ≡ not_ordered.NoOrder none };

    fn from(none: NoOrder) -> NotOrdered {
        NotOrdered::NoOrder(none)
    }
}

impl NotOrdered {
    // The refusal that it is.
    pub fn refusal(&self) -> Refusal
        ensures answer { result ≡ refusal_of_order self.now }
    {
        match self {
            NotOrdered::CoreLacking => Refusal::CoreLacking,
            NotOrdered::NoOrder(_) => Refusal::NoOrder,
        }
    }
}
