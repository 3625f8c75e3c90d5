// Running a job: its head, then its acts on the store that the head makes, and on the card that it places there.
use crate::reading::Lines;
use crate::stop::Stop;
use answers::{Answer, Refused, Totals};
use bench::{CardJob, Job, Stage, StoreJob};
use card::Placement;
use codes::{Am2960, ByteParity, Code, CodeName};
use language::{AskedMap, AskedPlacement, Dialect, Make, Wrong, wrong_text};
use maps::Map;
use std::alloc::{AllocError, Global};
use std::io;
use std::io::{BufRead, BufWriter, Stdout, Write};
use std::ops::ControlFlow;
use stores::{Bench, Flat, MOST_CELLS, Pair, Split};

// Where the answers go, how they are shown, and in which dialect jobs are read.
#[derive(Drop)]
pub(crate) struct Output {
    writer: BufWriter<Stdout>,
    pub(crate) echo: bool,
    dialect: Dialect,
    heap: Global,
}

impl Output {
    pub(crate) fn new(heap: Global, dialect: Dialect, writer: BufWriter<Stdout>) -> Output {
        Output {
            writer,
            echo: false,
            dialect,
            heap,
        }
    }

    // A job from its first line on; a line that breaks a rule ends the program, a refused head the job.
    pub(crate) fn run_job<I: BufRead + Drop>(&mut self, lines: Lines<'_, I>) -> Result<(), Stop> {
        match self.run_head(lines) {
            Err(Stop::Refused(refused)) => Ok(self.show(Some(Answer::Refused(refused)))?),
            ended => ended,
        }
    }

    fn run_head<I: BufRead + Drop>(&mut self, mut lines: Lines<'_, I>) -> Result<(), Stop> {
        let mut job = Job::new(self.dialect);
        match self.run_stage(&mut lines, &mut job)? {
            Some((code, make)) => self.run_made(lines, code, make),
            None => self.finish(Totals::new()),
        }
    }

    // The lines of a stage: what ended it, or none where no line is left.
    fn run_stage<I: BufRead + Drop, S: Stage>(
        &mut self,
        lines: &mut Lines<'_, I>,
        stage: &mut S,
    ) -> Result<Option<S::End>, Stop> {
        let heap = self.heap;
        // A count, since each loop is shown to end; no input has so many lines.
        for _ in 0..u64::MAX {
            let Some(line) = lines.next_line()? else {
                break;
            };
            self.echo_line(line.content)?;
            let given = stage
                .run_line(line.content)
                .map_err(|wrong| wrong_line(heap, line.number, &wrong))?;
            match given {
                ControlFlow::Continue(answer) => self.show(answer)?,
                ControlFlow::Break(end) => return Ok(Some(end)),
            }
        }
        Ok(None)
    }

    // The rest of a job, on a store of the make that its head asks for, with all cells 0.
    // Lines and code go down to the store side by side: a struct of both would only be taken apart again.
    fn run_made<I: BufRead + Drop>(
        &mut self,
        lines: Lines<'_, I>,
        code: CodeName,
        make: Make,
    ) -> Result<(), Stop> {
        let heap = self.heap;
        match make {
            Make::Flat { cells } => {
                let mut cells = row(heap, cells, 0u32)?;
                self.run_on(lines, code, Flat::new(&mut cells))
            }
            Make::Split { cells } => {
                let mut words = row(heap, cells, 0u16)?;
                let mut checks = row(heap, cells, 0u8)?;
                self.run_on(lines, code, Split::new(&mut words, &mut checks))
            }
            Make::Pair { first, second } => {
                let mut cells = row(heap, first, 0u32)?;
                let mut words = row(heap, second, 0u16)?;
                let mut checks = row(heap, second, 0u8)?;
                let pair = Pair::new(Flat::new(&mut cells), Split::new(&mut words, &mut checks));
                self.run_on(lines, code, pair)
            }
            Make::Map { cells, map } => self.run_map(lines, code, cells, map),
            Make::Banks { first, second, map } => self.run_banks(lines, code, (first, second), map),
        }
    }

    fn run_map<I: BufRead + Drop>(
        &mut self,
        lines: Lines<'_, I>,
        code: CodeName,
        cells: u32,
        asked: AskedMap,
    ) -> Result<(), Stop> {
        let map = asked.to_map().map_err(Refused::Map)?;
        let mut cells = row(self.heap, cells, 0u32)?;
        self.run_on(lines, code, Map::new(&map, Flat::new(&mut cells)))
    }

    fn run_banks<I: BufRead + Drop>(
        &mut self,
        lines: Lines<'_, I>,
        code: CodeName,
        cells: (u32, u32),
        asked: AskedMap,
    ) -> Result<(), Stop> {
        let map = asked.to_map().map_err(Refused::Map)?;
        let mut words = row(self.heap, cells.0, 0u16)?;
        let mut checks = row(self.heap, cells.0, 0u8)?;
        let mut more_words = row(self.heap, cells.1, 0u16)?;
        let mut more_checks = row(self.heap, cells.1, 0u8)?;
        let pair = Pair::new(
            Map::new(&map, Split::new(&mut words, &mut checks)),
            Map::new(&map, Split::new(&mut more_words, &mut more_checks)),
        );
        self.run_on(lines, code, pair)
    }

    fn run_on<I: BufRead + Drop, B: Bench + Drop>(
        &mut self,
        mut lines: Lines<'_, I>,
        code: CodeName,
        store: B,
    ) -> Result<(), Stop> {
        let mut job = StoreJob::new(self.dialect, code, store);
        match self.run_stage(&mut lines, &mut job)? {
            Some(asked) => self.run_place(lines, job, asked),
            None => self.finish(job.totals),
        }
    }

    fn run_place<I: BufRead + Drop, B: Bench + Drop>(
        &mut self,
        lines: Lines<'_, I>,
        job: StoreJob<B>,
        asked: AskedPlacement,
    ) -> Result<(), Stop> {
        let placement = Placement::new(asked.capacity, asked.start, asked.control).map_err(
            Refused::Placement,
        )?;
        self.run_placed(lines, job, placement)
    }

    // The rest of a job, on a card with the code that its head chose.
    // A match, since no value stands for either code.
    fn run_placed<I: BufRead + Drop, B: Bench + Drop>(
        &mut self,
        lines: Lines<'_, I>,
        job: StoreJob<B>,
        placement: Placement,
    ) -> Result<(), Stop> {
        match job.code {
            CodeName::Am2960 => self.run_card(lines, CardJob::new(placement, job, Am2960)),
            CodeName::Parity => self.run_card(lines, CardJob::new(placement, job, ByteParity)),
        }
    }

    fn run_card<I: BufRead + Drop, B: Bench + Drop, C: Code + Drop>(
        &mut self,
        mut lines: Lines<'_, I>,
        mut job: CardJob<B, C>,
    ) -> Result<(), Stop> {
        let _ = self.run_stage(&mut lines, &mut job)?;
        self.finish(job.totals)
    }

    // The closing line of a job that was not ended early; jobs on stores alone have none.
    fn finish(&mut self, totals: Totals) -> Result<(), Stop> {
        if self.dialect == Dialect::Cards {
            writeln!(self.writer, "{totals}")?;
        }
        Ok(())
    }

    // The line above a job, where several are run.
    pub(crate) fn title(&mut self, name: &str) -> io::Result<()> {
        writeln!(self.writer, "== {name}")
    }

    pub(crate) fn usage(&mut self, program: &str) -> io::Result<()> {
        writeln!(self.writer, "usage: {program} [--echo] [JOB ..]")?;
        self.writer.write_all(USAGE.as_bytes())
    }

    pub(crate) fn flush(&mut self) -> io::Result<()> {
        self.writer.flush()
    }

    fn echo_line(&mut self, line: &[u8]) -> io::Result<()> {
        if self.echo {
            self.writer.write_all(line)?;
            writeln!(self.writer)?;
        }
        Ok(())
    }

    fn show(&mut self, answer: Option<Answer>) -> io::Result<()> {
        if let Some(answer) = answer {
            if self.echo {
                write!(self.writer, "    ")?;
            }
            writeln!(self.writer, "{answer}")?;
        }
        Ok(())
    }
}

fn wrong_line(heap: Global, number: u64, wrong: &Wrong<'_>) -> Stop {
    wrong_text(heap, number, wrong).map_or_else(Stop::Memory, Stop::Wrong)
}

// A row of n equal elements, of which more than a store can use are left out.
fn row<T: Clone + Drop>(heap: Global, n: u32, x: T) -> Result<Vec<T>, AllocError> {
    vec![in heap; x; n.min(MOST_CELLS) as usize]
}

const USAGE: &str =
    "Runs each job in order and prints one line for each act. A JOB is the name of a file, - for standard input,
or --default for the job that the program brings along; without any, the job is read from standard input.
  --echo   prints the lines of the job too, each before its answer
  --help   prints this text
";
