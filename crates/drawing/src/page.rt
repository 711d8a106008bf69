// What a picture is printed on.
ghost use Rattle.std.specs.Prelude.{◌≡◌};

use std::cell::Cell;
use std::fmt::Display;
use std::io;
use std::rt::HostRuntime;

pub trait Paper: Print {
    // Whether the picture goes on. `tools` prints some of it on a descriptor, so it is asked before.
    fn goes_on(&self) -> bool;
}

// What can't be written is left out.
impl Paper for HostRuntime {
    fn goes_on(&self) -> bool {
        true
    }
}

// What prints, up to the first error, which stays the answer.
pub struct Page<'a, R> {
    rt: &'a R,
    written: Cell<io::Result<()>>,
}

impl<'a, R: Print> Page<'a, R> {
    pub fn new(rt: &'a R) -> Page<'a, R> {
        Page {
            rt,
            written: Cell::new(Ok(())),
        }
    }

    fn keep<T: Drop>(&self, outcome: io::Result<T>) -> io::Result<T>
        ensures { result ≡ outcome }
    {
        if let Err(error) = &outcome {
            self.written.set(Err(*error));
        }
        outcome
    }

    // Ok where all could be written.
    pub fn written(self) -> io::Result<()> {
        let Page { rt: _, written } = self;
        written.into_inner()
    }
}

impl<'a, R: Print> Print for Page<'a, R> {
    fn print<D: Display + Drop>(&self, value: D) -> io::Result<()> {
        self.written.get()?;
        self.keep(self.rt.print(value))
    }

    fn println<D: Display + Drop>(&self, value: D) -> io::Result<()> {
        self.written.get()?;
        self.keep(self.rt.println(value))
    }

    fn write_all(&self, bytes: &[u8]) -> io::Result<()> {
        self.written.get()?;
        self.keep(self.rt.write_all(bytes))
    }

    fn write_some(&self, bytes: &[u8]) -> io::Result<usize> {
        self.written.get()?;
        self.keep(self.rt.write_some(bytes))
    }
}

impl<'a, R: Print> Paper for Page<'a, R> {
    fn goes_on(&self) -> bool {
        self.written.get().is_ok()
    }
}

// Prints up to the first error, and answers it.
pub fn up_to_error<R: Print, F: FnOnce(&Page<'_, R>)>(rt: &R, print: F) -> io::Result<()>
    requires { F.IsAlwaysCallable print }
{
    let page = Page::new(rt);
    print(&page);
    page.written()
}
