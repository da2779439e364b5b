// Loading a file: block after block, and each record entered like any other row. A load stops at the
// first refusal and keeps what it entered.
ghost use Rattle.std.specs.Prelude.{◌≡◌, ◌+◌, ◌*◌, ◌≤◌, IfOk};
ghost use Rattle.sheet.specs.Editing.{entered, entry_of};
ghost use Rattle.sheet.specs.Loading.{Loads, after_load, block_steps, load_answer, record_refusal, record_steps, taken};
ghost use Rattle.sheet.specs.State.{Becomes, IsLentAs, state_of, unless};
ghost use Rattle.table.specs.Refusals.{done_unless};
ghost use Rattle.tablefile.specs.Reading.{block_at};
ghost use Rattle.tablefile.specs.Refusing.{block_refusal};

use crate::entry::Entry;
use crate::open::OpenSheet;
use crate::refused::Stopped;
use table::refusal::Refusal;
use tablefile::checking::{check_block, check_length};
use tablefile::decoding::decode;
use tablefile::reader::Reader;
use tablefile::records::Record;

impl OpenSheet<'_> {
    // Enters a record unless something refuses it; its fourth byte has to be zero.
    fn put_record(&mut self, record: &Record) -> Result<(), Refusal>
        ensures answer { result ≡ done_unless (record_refusal (state_of self.old) «record».now) }
        ensures after { Becomes self.old self.new (unless (record_refusal (state_of self.old) «record».now) (entered (state_of self.old) (entry_of «record».now)) (state_of self.old)) }
    {
        self.put(&Entry::from(record), record.fourth == 0)
    }

    // Whether a block passes the checks.
    fn check_block(&self, reader: &Reader<'_>, block: u8) -> Result<(), Refusal>
        ensures { result ≡ done_unless (block_refusal self.now.board block (block_at reader.now.bytes.now block)) }
    {
        check_block(&self.board, block, reader.block(block))
    }

    // Enters the records of a block, after some were entered.
    fn load_records(
        &mut self,
        reader: &Reader<'_>,
        block: u8,
        before: usize,
    ) -> Result<usize, Stopped>
        requires { before ≤ 255 * block }
        ensures loads { record { sheet = state_of self.new; told = result } ≡ taken reader.now.bytes.now (state_of self.old) before (record_steps reader.now.bytes.now block) }
        ensures few { IfOk result (λ n. n ≤ before + 255) }
        ensures lent { IsLentAs self.old self.new }
    {
        let mut entered = before;
        for position in 0..reader.count(block) {
            let (bytes, block, record) = reader.record(block, position);
            match self.put_record(&decode(bytes)) {
                Ok(()) => entered += 1,
                Err(cause) => return Err(Stopped::at(cause, block, record, entered)),
            }
        }
        Ok(entered)
    }

    // Checks a block, and then enters its records.
    fn load_block(
        &mut self,
        reader: &Reader<'_>,
        block: u8,
        before: usize,
    ) -> Result<usize, Stopped>
        requires { before ≤ 255 * block }
        ensures loads { record { sheet = state_of self.new; told = result } ≡ taken reader.now.bytes.now (state_of self.old) before (block_steps reader.now.bytes.now block) }
        ensures few { IfOk result (λ n. n ≤ before + 255) }
        ensures lent { IsLentAs self.old self.new }
    {
        match self.check_block(reader, block) {
            Ok(()) => self.load_records(reader, block, before),
            Err(cause) => Err(Stopped::at(cause, block, 0, before)),
        }
    }

    // Loads a file. The records that were entered are counted, also where the load is refused.
    pub fn load(&mut self, bytes: &[u8]) -> Result<usize, Stopped>
        ensures answer { result ≡ load_answer (state_of self.old) bytes.now }
        ensures after { Becomes self.old self.new (after_load (state_of self.old) bytes.now) }
        ensures loads { Loads (state_of self.old) bytes.now result (state_of self.new) }
    {
        if let Err(cause) = check_length(bytes.len()) {
            return Err(Stopped::at(cause, 0, 0, 0));
        }
        let reader = Reader::new(bytes);
        let mut entered = 0;
        for block in 0..reader.blocks() {
            entered = self.load_block(&reader, block as u8, entered)?;
        }
        Ok(entered)
    }
}
