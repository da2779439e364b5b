// Preparing a table, and asking it.
ghost use Rattle.std.specs.Prelude.{◌≡◌, false, MatchOption};
ghost use Rattle.bounds.specs.Bounds.{ahead_bound, composable_bound};
ghost use Rattle.bounds.specs.Lengths.{length_of};
ghost use Rattle.bounds.specs.Questions.{Asks, Deadlines, Found, deadline_in};
ghost use Rattle.table.specs.Rows.{on_board, plain};
ghost use Rattle.table.specs.Sets.{members};
ghost use Rattle.table.specs.Tasks.{listed, slot};

use crate::gathering::{Higher, Rivals, gather};
use crate::lengths::Lengths;
use crate::prepared::{CheckedTable, RivalTable};
use crate::question::{LesserRule, Own, SensitivityRule};
use least::{Rule, climb};
use std::array;
use table::board::Board;
use table::row::Row;
use table::set::TaskSet;
use table::task::Task;
use table::tasks::Tasks;

// The deadline of a number's task, or 0.
fn deadline_at(tasks: &Tasks, number: usize) -> u32
    ensures { result ≡ deadline_in (slot tasks.now number) }
{
    tasks.at(number).map_or(0, |task| task.figures.deadline)
}

// The deadlines of the tasks, by number.
fn deadlines(tasks: &Tasks) -> Lengths
    ensures { Deadlines (listed tasks.now) result.of }
{
    Lengths {
        of: array::from_fn(|number| deadline_at(tasks, number)),
    }
}

impl CheckedTable {
    pub(crate) fn of(board: &Board, rows: &[Row]) -> CheckedTable
        ensures board { result.board ≡ board.now }
        ensures tasks { listed result.tasks ≡ plain rows.now }
    {
        CheckedTable {
            board: *board,
            tasks: Tasks::of(rows),
        }
    }

    // The task of a number, if it is on a core of the board.
    pub(crate) fn task(&self, number: usize) -> Option<Task>
        ensures { Found self.now.board (listed self.now.tasks) number result }
    {
        self.tasks
            .at(number)
            .filter(|task| task.core < self.board.cores)
    }

    // The question of a number and a set, if the number has a task on a core of the board.
    fn own<'a>(&'a self, number: usize, above: &'a TaskSet) -> Option<Own>
        ensures { MatchOption result (on_board self.now.board (listed self.now.tasks) number ≡ false) (Asks self.now.board (listed self.now.tasks) number (members above.now)) }
    {
        let task = self.task(number)?;
        let higher = gather(&Higher {
            tasks: &self.tasks,
            number,
            core: task.core,
            above,
        });
        Some(Own { task, higher })
    }

    // The composable test's bound.
    pub(crate) fn ask<'a>(&'a self, number: usize, above: &'a TaskSet) -> Option<u32>
        ensures { result ≡ composable_bound self.now.board (listed self.now.tasks) number (members above.now) }
    {
        let own = self.own(number, above)?;
        let rule = SensitivityRule {
            board: &self.board,
            own: &own,
        };
        climb(&rule, own.task.figures.deadline)
    }

    // With the deadlines as the lengths from which the releases of rivals are counted.
    pub(crate) fn with_deadlines(self) -> RivalTable
        ensures table { result.table ≡ self }
        ensures ahead { Deadlines (listed self.tasks) result.ahead.of }
    {
        let ahead = deadlines(&self.tasks);
        self.with_lengths(ahead)
    }

    pub(crate) fn with_lengths(self, ahead: Lengths) -> RivalTable
        ensures table { result.table ≡ self }
        ensures ahead { result.ahead ≡ ahead }
    {
        let rivals = gather(&Rivals {
            table: &self,
            ahead: &ahead,
        });
        RivalTable {
            table: self,
            ahead,
            rivals,
        }
    }
}

impl RivalTable {
    // The deadline test's bound, with these lengths in the place of the deadlines.
    pub(crate) fn ask<'a>(&'a self, number: usize, above: &'a TaskSet) -> Option<u32>
        ensures { result ≡ ahead_bound (length_of self.now.ahead.of) self.now.table.board (listed self.now.table.tasks) number (members above.now) }
    {
        let own = self.table.own(number, above)?;
        let rule = LesserRule {
            board: &self.table.board,
            own: &own,
            rivals: &self.rivals,
        };
        climb(&rule, own.task.figures.deadline)
    }
}
