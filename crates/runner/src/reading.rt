// The lines of a job, read one after the other.
use crate::stop::Stop;
use language::line_content;
use std::alloc::Global;
use std::io::BufRead;

#[derive(Drop)]
pub(crate) struct Lines<'n, I: BufRead + Drop> {
    name: &'n str,
    input: I,
    heap: Global,
    // The line that was read last, with its end, and its number.
    text: Vec<u8>,
    number: u64,
}

// A line without its end.
#[derive(Clone, Copy)]
pub(crate) struct Line<'a> {
    pub(crate) number: u64,
    pub(crate) content: &'a [u8],
}

impl<'n, I: BufRead + Drop> Lines<'n, I> {
    pub(crate) fn new(heap: Global, name: &'n str, input: I) -> Lines<'n, I> {
        Lines {
            name,
            input,
            heap,
            text: Vec::new(heap),
            number: 0,
        }
    }

    // The next line, if there is one.
    pub(crate) fn next_line(&mut self) -> Result<Option<Line<'_>>, Stop> {
        let (heap, name) = (self.heap, self.name);
        self.text.clear();
        let read = self
            .input
            .read_until(b'\n', &mut self.text)
            .map_err(|error| Stop::unreadable(heap, name, error))?;
        if read == 0 {
            return Ok(None);
        }
        self.number = self.number.saturating_add(1);
        Ok(Some(Line {
            number: self.number,
            content: line_content(&self.text),
        }))
    }
}
