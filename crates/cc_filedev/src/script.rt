//! The file of the script as a source of bytes, opened as its first bytes are taken.

ghost use Rattle.std.specs.Prelude.{◌≡◌, false, [], None};

use cc_traits::{Faults, Given, Source, Stop, is_end};
use std::fs::Files;
use std::io::Read;
use std::{fs, io};

/// Where a file is.
pub trait FilePlace: Drop {
    /// The file, once it is open.
    type File: Read + Drop;

    /// Opens the file.
    fn open(&self) -> io::Result<Self::File>;
}

/// A path among files.
#[derive(Drop)]
pub struct PlaceOf<'a, R: Files> {
    pub files: &'a R,
    pub path: &'a str,
}

impl<'a, R: Files> FilePlace for PlaceOf<'a, R> {
    type File = R::File;

    fn open(&self) -> io::Result<R::File> {
        fs::open(self.files, self.path)
    }
}

/// The bytes of a file, which is opened as its first bytes are taken.
#[derive(Drop)]
pub struct ScriptFile<P: FilePlace> {
    place: P,
    file: Option<P::File>,
    given: Given,
    ended: bool,
    faults: Faults,
}

impl<P: FilePlace> ScriptFile<P> {
    /// The file at a place, which is not open yet: it gave no byte, and no call has failed.
    pub fn new(place: P) -> ScriptFile<P>
        ensures none_given { result.given ≡ [] }
        ensures not_ended { result.ended ≡ false }
        ensures no_fault { result.faults ≡ 0 }
    {
        ScriptFile {
            place,
            file: None,
            given: Given::new(),
            ended: false,
            faults: Faults::new(),
        }
    }
}

impl<P: FilePlace> Source for ScriptFile<P> {
    ghost told = { λ _. None };

    ghost faults = { λ source. source.faults };

    ghost given = { λ source. source.given };

    ghost ended = { λ source. source.ended };

    fn take(&mut self, buf: &mut [u8]) -> Result<usize, Stop> {
        self.ended = false;
        let mut file = match self.file.take() {
            Some(file) => file,
            None => match self.place.open() {
                Ok(file) => file,
                Err(_) => return Err(self.faults.raise()),
            },
        };
        let read = file.read(buf);
        self.file = Some(file);
        match read {
            Ok(n) => {
                self.given.note(&buf[..n]);
                self.ended = is_end(buf, n);
                Ok(n)
            }
            Err(_) => Err(self.faults.raise()),
        }
    }
}
