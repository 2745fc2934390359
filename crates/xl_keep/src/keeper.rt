ghost use Rattle.std.specs.Prelude.{◌≡◌, ◌≤◌, None, IfOk, is_ok};
ghost use Rattle.std.specs.Result.{result_ok};
ghost use Rattle.xl_keep.specs.Files.{Told, Writes};
ghost use Rattle.xl_keep.specs.Texts.{text_of};
ghost use Rattle.xl_keep.specs.Saves.{Saved, Loaded, SaysSo, Saving, counted};

use crate::text::{MOST_BYTES, number_of, spell};
use crate::whole::WholeFile;
use std::alloc::Global;
use std::io::{self, ErrorKind};
use xl_base::{OutOfMemory, Seq};
use xl_io::{Failed, Keeper};

/// How often a save is tried again, after as many waits of the file.
const TRIES: u32 = 4;

/// A keeper of the last issued sequence in a file, which holds its decimal digits and a newline, and nothing else. What
/// it holds isn't told.
#[derive(Drop)]
pub struct FileKeeper<F> {
    file: F,
    text: String,
    faults: u64,
}

impl<F: WholeFile + Drop> FileKeeper<F> {
    /// A keeper over this file. No later call takes memory.
    pub fn new(alloc: Global, file: F) -> Result<Self, OutOfMemory>
        ensures faults { IfOk result (λ keeper. ⟦<FileKeeper<F> as Keeper>⟧.faults keeper ≡ 0) }
    {
        let text = String::with_capacity(alloc, MOST_BYTES)?;
        Ok(FileKeeper {
            file,
            text,
            faults: 0,
        })
    }

    /// The number that the file says.
    fn number(&mut self) -> io::Result<Seq>
        ensures said { IfOk result (λ n. Told (SaysSo n) (F.shows self.old.file) (F.shows self.new.file)) }
        ensures faults { self.new.faults ≡ self.old.faults }
    {
        let mut room = [0; MOST_BYTES + 1];
        let Some(count) = self.file.read(&mut room)? else {
            return Ok(0);
        };
        match number_of(&mut self.text, &room[..count])? {
            Some(seq) => Ok(seq),
            None => Err(io::Error::from(ErrorKind::InvalidData)),
        }
    }

    /// The same, once a file was written beside: a node that couldn't save would validate nothing.
    #[tactic(auto, using(crate::proofs::Loads::loaded_beside))]
    fn number_to_go_on(&mut self) -> io::Result<Seq>
        ensures loaded { IfOk result (λ n. Told (Loaded n) (F.shows self.old.file) (F.shows self.new.file)) }
        ensures faults { self.new.faults ≡ self.old.faults }
    {
        let seq = self.number()?;
        self.write_number(seq)?;
        Ok(seq)
    }

    /// Writes the number beside the file.
    fn write_number(&mut self, seq: Seq) -> io::Result<()>
        ensures written { Told (Writes (text_of seq) (is_ok result)) (F.shows self.old.file) (F.shows self.new.file) }
        ensures faults { self.new.faults ≡ self.old.faults }
    {
        spell(&mut self.text, seq)?;
        self.file.write_beside(self.text.as_bytes())
    }

    /// Writes the number beside the file, and puts it in its place.
    fn replace(&mut self, seq: Seq) -> io::Result<()>
        ensures saved { Told (Saved seq (is_ok result)) (F.shows self.old.file) (F.shows self.new.file) }
        ensures faults { self.new.faults ≡ self.old.faults }
    {
        self.write_number(seq)?;
        self.file.put_in_place()
    }

    /// The same, tried again some times where it fails.
    fn replace_in_the_end(&mut self, seq: Seq) -> io::Result<()>
        ensures saved { Told (Saved seq (is_ok result)) (F.shows self.old.file) (F.shows self.new.file) }
        ensures faults { self.new.faults ≡ self.old.faults }
    {
        for _ in 0..TRIES {
            match self.replace(seq) {
                Ok(()) => return Ok(()),
                Err(_) => self.file.wait(),
            }
        }
        self.replace(seq)
    }

    /// What a call answers that came to this. A failure is a fault.
    fn answer<T: Drop>(&mut self, done: io::Result<T>) -> Result<T, Failed>
        ensures same { result_ok result ≡ result_ok done }
        ensures file { self.new.file ≡ self.old.file }
        ensures faults { self.new.faults ≡ counted (is_ok result) self.old.faults }
        ensures later { self.old.faults ≤ self.new.faults }
    {
        match done {
            Ok(value) => Ok(value),
            Err(_) => {
                self.faults = self.faults.saturating_add(1);
                Err(Failed)
            }
        }
    }
}

impl<F: WholeFile + Drop> Keeper for FileKeeper<F> {
    ghost held = { λ _. None };

    ghost saves = { λ _. None };

    ghost faults = { λ keeper. keeper.faults };

    ghost load_gives = { λ old seq new. Told (Loaded seq) (F.shows old.file) (F.shows new.file) };

    ghost save_gives = { λ old seq ok new. Saving seq ok (F.shows old.file) (F.shows new.file) old.faults new.faults };

    /// It fails if the file can't be read, if its text isn't that of a number, and if that number can't be written
    /// beside it.
    fn load(&mut self) -> Result<Seq, Failed> {
        let loaded = self.number_to_go_on();
        self.answer(loaded)
    }

    /// It fails if the number can't be written beside the file, or not put in its place, in each of some tries.
    fn save(&mut self, seq: Seq) -> Result<(), Failed> {
        let saved = self.replace_in_the_end(seq);
        self.answer(saved)
    }

    fn faults(&self) -> u64 {
        self.faults
    }
}
