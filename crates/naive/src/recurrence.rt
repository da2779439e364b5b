// The recurrences, reckoned as they are told: every window from 1 up to the deadline is tried, and
// every sum is taken anew over the whole list.
ghost use Rattle.naive.specs.Answers.{CanBeBound, deadline_at, is_above, ranked_above, task_at};
ghost use Rattle.naive.specs.Sets.{members};
ghost use Rattle.std.specs.List.{range_with_len};
ghost use Rattle.std.specs.Prelude.{◌≡◌, ◌<◌, ◌≤◌, IfSome, map};
ghost use Rattle.table.specs.Limits.{all_small, small};
ghost use Rattle.table.specs.Rows.{holds_task, on_core};

use crate::numbers::Numbers;
use std::array;
use table::board::Board;
use table::row::Row;

#[derive(Clone, Copy, PartialEq, Eq)]
pub enum Kind {
    Composable,
    Deadline,
}

// A question: of which task, with which above it, and from which lengths.
#[derive(Clone, Copy)]
pub struct Question<'a> {
    pub kind: Kind,
    pub board: Board,
    pub rows: &'a [Row],
    pub number: usize,
    pub above: Numbers,
    pub ahead: [u32; 64],
}

fn is_small(n: u32) -> bool
    ensures { result ≡ small n }
{
    n <= 10_000_000
}

fn are_small(xs: &[u32; 4]) -> bool
    ensures { result ≡ all_small xs.now }
{
    let [a, b, c, d] = *xs;
    is_small(a) && is_small(b) && is_small(c) && is_small(d)
}

fn holds_task(row: &Row) -> bool
    ensures { result ≡ holds_task row.now }
{
    let f = row.figures;
    let limits = (f.period > 0)
        & is_small(f.period)
        & (f.deadline > 0)
        & (f.deadline <= f.period)
        & (f.cost > 0)
        & is_small(f.cost)
        & are_small(&f.sensitivity)
        & are_small(&f.stress);
    row.used & limits
}

// The row of a number that has a task: none past 63, in an unused row or in one that breaks a limit.
pub(crate) fn task(rows: &[Row], number: usize) -> Option<Row>
    ensures { result ≡ task_at rows.now number }
{
    let Some(row) = rows.get(number) else {
        return None;
    };
    if number > 63 {
        return None;
    }
    if holds_task(row) { Some(*row) } else { None }
}

// How many releases a window holds.
fn releases(window: u64, row: &Row) -> u64 {
    window.div_ceil(u64::from(row.figures.period).max(1))
}

impl Question<'_> {
    // Whether a task counts as above the one that is asked about.
    fn is_above(&self, me: &Row, number: usize, other: &Row) -> bool {
        number != self.number && other.core == me.core && self.above.has(number)
    }

    // Releases of the task of a number, each times its weight; none if it does not count as above.
    fn part_above<F: Fn(&Row) -> u32>(&self, me: &Row, j: usize, t: u64, weight: &F) -> u64
        requires { F.IsAlwaysCallable weight.now }
    {
        match task(self.rows, j) {
            Some(other) if self.is_above(me, j, &other) => {
                releases(t, &other).saturating_mul(u64::from(weight(&other)))
            }
            _ => 0,
        }
    }

    // Releases of the tasks above, each times its weight.
    fn from_above<F: Fn(&Row) -> u32>(&self, me: &Row, t: u64, weight: F) -> u64
        requires { F.IsAlwaysCallable weight }
    {
        (0..64)
            .map(|j| self.part_above(me, j, t, &weight))
            .fold(0, |sum: u64, part| sum.saturating_add(part))
    }

    // What the task of a number inflicts from one core, its releases counted from a length before
    // the window; nothing if it is not on that core.
    fn part_inflicted(&self, core: u8, j: usize, window: u64, r: usize) -> u64
        requires { r < 4 }
    {
        match task(self.rows, j) {
            Some(other) if other.core == core => {
                releases(window, &other).saturating_mul(u64::from(other.figures.stress[r]))
            }
            _ => 0,
        }
    }

    // What the tasks of one core inflict.
    fn from_core(&self, core: u8, t: u64, r: usize) -> u64
        requires { r < 4 }
    {
        self.ahead
            .iter()
            .enumerate()
            .map(|(j, ahead)| {
                self.part_inflicted(core, j, t.saturating_add(u64::from(*ahead)), r)
            })
            .fold(0, |sum: u64, part| sum.saturating_add(part))
    }

    // What one resource adds: from each other core no more than the task and those above suffer.
    fn from_resource(&self, me: &Row, t: u64, r: usize) -> u64
        requires { r < 4 }
    {
        let above = self.from_above(me, t, |other| other.figures.sensitivity[r]);
        let suffered = u64::from(me.figures.sensitivity[r]).saturating_add(above);
        (0..self.board.cores)
            .filter(|core| *core != me.core)
            .map(|core| match self.kind {
                Kind::Composable => suffered,
                Kind::Deadline => suffered.min(self.from_core(core, t, r)),
            })
            .fold(0, |sum: u64, part| sum.saturating_add(part))
    }

    fn right_side(&self, me: &Row, t: u64) -> u64 {
        let above = self.from_above(me, t, |other| other.figures.cost);
        let own = u64::from(me.figures.cost).saturating_add(above);
        (0..usize::from(self.board.resources))
            .map(|r| self.from_resource(me, t, r))
            .fold(own, |sum: u64, part| sum.saturating_add(part))
    }

    // The first window up to the deadline that the right side gives again.
    fn first_window(&self, me: &Row) -> Option<u32>
        ensures { IfSome result (λ t. (1 ≤ t) × (t ≤ me.now.figures.deadline)) }
    {
        (1..=me.figures.deadline).find(|t| self.right_side(me, u64::from(*t)) == u64::from(*t))
    }

    // The bound of the task.
    pub fn bound(&self) -> Option<u32>
        ensures answer { CanBeBound self.now.board self.now.rows.now self.now.number result }
    {
        let me = task(self.rows, self.number)?;
        if me.core < self.board.cores {
            self.first_window(&me)
        } else {
            None
        }
    }
}

// Whether a number has a task of the core of another one, with a smaller rank number.
fn is_ranked_above(rows: &[Row], me: &Row, number: usize) -> bool
    ensures { result ≡ is_above rows.now me.now number }
{
    match task(rows, number) {
        Some(other) => (other.core == me.core) & (other.rank < me.rank),
        None => false,
    }
}

// The tasks of the same core with a smaller rank number; none above a number without a task.
pub fn above(rows: &[Row], number: usize) -> Numbers
    ensures answer { members result ≡ ranked_above rows.now number }
{
    match task(rows, number) {
        Some(me) => Numbers {
            flags: array::from_fn(|j| is_ranked_above(rows, &me, j)),
        },
        None => Numbers::NONE,
    }
}

// Whether a number has a task of a core.
fn is_task_of(rows: &[Row], core: u8, number: usize) -> bool
    ensures { result ≡ on_core rows.now core number }
{
    match task(rows, number) {
        Some(row) => row.core == core,
        None => false,
    }
}

// The tasks of a core.
pub fn tasks_of(rows: &[Row], core: u8) -> Numbers
    ensures answer { members result ≡ on_core rows.now core }
{
    Numbers {
        flags: array::from_fn(|k| is_task_of(rows, core, k)),
    }
}

fn deadline_of(rows: &[Row], number: usize) -> u32
    ensures { result ≡ deadline_at rows.now number }
{
    match task(rows, number) {
        Some(row) => row.figures.deadline,
        None => 0,
    }
}

// The deadlines, by number.
pub fn deadlines(rows: &[Row]) -> [u32; 64]
    ensures answer { result ≡ map (deadline_at rows.now) (range_with_len 0 64) }
{
    array::from_fn(|k| deadline_of(rows, k))
}
