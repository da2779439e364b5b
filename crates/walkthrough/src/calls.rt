// What the calls of a run answered: the load of the file, and an ordering of each core.
use ordering::order::NoOrder;
use promise::call::Answer;
use sheet::marks::Mark;
use sheet::refused::{NotOrdered, Stopped};
use std::fmt;
use telling::counted::Counted;

#[derive(Clone, Copy)]
struct StopTold(Stopped);

impl fmt::Display for StopTold {
    fn fmt<W: fmt::Write>(&self, f: &mut fmt::Formatter<W>) -> fmt::Result {
        let Stopped {
            layer,
            cause,
            block,
            record,
            entered,
        } = self.0;
        write!(
            f,
            "The load stopped with refusal {cause}, of the {layer}, at record {record} of block {block}; {entered} entered"
        )
    }
}

// What the load answered, which is the first answer.
#[derive(Clone, Copy)]
struct LoadTold(Option<Answer>);

impl fmt::Display for LoadTold {
    fn fmt<W: fmt::Write>(&self, f: &mut fmt::Formatter<W>) -> fmt::Result {
        match self.0 {
            Some(Answer::Loaded(Ok(entered))) => {
                write!(f, "The file was loaded: {entered} tasks entered")
            }
            Some(Answer::Loaded(Err(stopped))) => write!(f, "{}", StopTold(stopped)),
            _ => Ok(()),
        }
    }
}

#[derive(Clone, Copy)]
struct OrderTold {
    core: usize,
    told: Result<u32, NotOrdered>,
}

impl fmt::Display for OrderTold {
    fn fmt<W: fmt::Write>(&self, f: &mut fmt::Formatter<W>) -> fmt::Result {
        let core = self.core;
        match self.told {
            Ok(count) => {
                let trials = Counted {
                    count,
                    word: "trial",
                };
                write!(f, "Core {core} was ordered in {trials}")
            }
            Err(NotOrdered::NoOrder(NoOrder { trials, unplaced })) => write!(
                f,
                "No order of core {core} passes: {trials} trials, {unplaced} tasks unplaced"
            ),
            Err(NotOrdered::CoreLacking) => write!(f, "The board has no core {core}"),
        }
    }
}

// What each ordering answered, a line each.
#[derive(Clone, Copy)]
struct OrdersTold<'a>(&'a [Option<Answer>]);

impl fmt::Display for OrdersTold<'_> {
    fn fmt<W: fmt::Write>(&self, f: &mut fmt::Formatter<W>) -> fmt::Result {
        for (core, answer) in self.0.iter().enumerate() {
            if let Some(Answer::Ordered(told)) = *answer {
                write!(f, "\n{}", OrderTold { core, told })?;
            }
        }
        Ok(())
    }
}

#[derive(Clone, Copy)]
struct MarksTold<'a>(&'a [Mark]);

impl fmt::Display for MarksTold<'_> {
    fn fmt<W: fmt::Write>(&self, f: &mut fmt::Formatter<W>) -> fmt::Result {
        for (core, mark) in self.0.iter().enumerate() {
            let state = if mark.is_standing() {
                "standing"
            } else {
                "loose"
            };
            write!(f, "\nCore {core} is {state}")?;
        }
        Ok(())
    }
}

// The answers of the load and of the orderings, and then the marks of the cores that were ordered.
#[derive(Clone, Copy)]
pub(crate) struct CallsTold<'a> {
    pub(crate) answers: &'a [Option<Answer>],
    pub(crate) marks: &'a [Mark],
}

impl fmt::Display for CallsTold<'_> {
    fn fmt<W: fmt::Write>(&self, f: &mut fmt::Formatter<W>) -> fmt::Result {
        match self.answers {
            [load, orders @ ..] => {
                let load = LoadTold(*load);
                let orders = OrdersTold(orders);
                let marks = MarksTold(self.marks);
                write!(f, "{load}{orders}{marks}")
            }
            [] => Ok(()),
        }
    }
}
