// Reports, saved files, and what the program prints.
ghost use Rattle.std.specs.Prelude.{◌≡◌, Ok};

use crate::edited::{TWO_CORES, entry, number_of};
use bounds::deadline::Deadline;
use examples::files::{changed, mended, worked_file};
use report::analysing::analyse;
use report::reporting::report;
use report::text::Text;
use sheet::open::OpenSheet;
use std::alloc::AllocError;
use std::panic::Expect;
use std::process::Abort;
use table::row::Row;

fn prints(rt: &impl Abort, file: &[u8], text: &[u8]) {
    assert_eq!(rt; analyse(file).as_bytes(), text);
}

// A clone of a text is that text.
fn cloned(text: &Text) -> Result<Text, AllocError>
    ensures { result ≡ Ok text.now }
{
    text.clone()
}

// Whoever is handed a text may use it by value more than once.
#[test]
fn copied(rt: HostRuntime) {
    let text = analyse(&[]);
    let clone = cloned(&text).ok().expect(&rt, "not cloned");
    for again in [text, text, clone] {
        assert_eq!(rt; again.as_bytes(), b"refused 2 entered 0\n".as_slice());
    }
}

#[test]
fn reporting(rt: HostRuntime) {
    let mut rows = [Row::EMPTY; 3];
    let mut sheet = OpenSheet::open(TWO_CORES, &mut rows);
    assert_eq!(rt; number_of(sheet.enter(&entry(2, 1, 17))), 0);
    assert!(rt; sheet.judge(1, &Deadline).is_ok());
    let closed = sheet.close();
    let text = b"cores 2 shared 1\ncore 0 loose\ncore 1 standing\n2 1 17 2\n";
    let mut short = [7; 54];
    assert!(rt; report(&closed, &Deadline, &mut short).is_err());
    assert_eq!(rt; short[0], 7);
    let mut out = [7; 56];
    assert_eq!(rt; report(&closed, &Deadline, &mut out).ok(), Some(55));
    assert!(rt; out.starts_with(text));
    assert_eq!(rt; out[55], 7);
}

// What was saved is loaded as the same rows.
#[test]
fn saving(rt: HostRuntime) {
    let mut rows = [Row::EMPTY; 64];
    let mut sheet = OpenSheet::open(TWO_CORES, &mut rows);
    assert!(rt; sheet.load(&worked_file()).is_ok());
    assert!(rt; sheet.order(0, &Deadline).is_ok());
    let closed = sheet.close();
    let mut short = [7; 511];
    assert!(rt; closed.save(&mut short).is_err());
    let mut out = [7; 513];
    assert_eq!(rt; closed.save(&mut out).ok(), Some(512));
    assert_eq!(rt; out[512], 7);
    let mut again = [Row::EMPTY; 64];
    let mut fresh = OpenSheet::open(TWO_CORES, &mut again);
    assert_eq!(rt; fresh.load(&out[0..512]).ok(), Some(3));
    assert_eq!(rt; again[1].rank, 2);
    assert_eq!(rt; again[2].rank, 1);
    assert_eq!(rt; again[3].core, 1);
}

#[test]
fn printing(rt: HostRuntime) {
    let file = worked_file();
    prints(
        &rt,
        &file,
        b"cores 2 shared 1\ncore 0 standing\ncore 1 standing\n1 0 2 7\n2 0 1 5\n3 1 1 5\n",
    );
    prints(&rt, &[], b"refused 2 entered 0\n");
    prints(&rt, &[0; 512], b"refused 1 entered 0\n");
    prints(&rt, &changed(file, 40, 9), b"refused 3 entered 0\n");
    prints(
        &rt,
        &mended(changed(file, 104, 2)),
        b"refused 8 entered 2\n",
    );
    prints(&rt, &[0; 32_769], b"refused 2 entered 0\n");
}
