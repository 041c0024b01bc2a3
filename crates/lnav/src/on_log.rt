// The commands on a log: what is asked of it, and feeds, each with a line of answer.
ghost use Rattle.std.specs.Prelude.{IfOk};
ghost use Rattle.io.specs.Counts.{IsPrefixLen};

use crate::command::OnLog;
use crate::problem::Problem;
use crate::request::Request;
use crate::session::Session;
use console::print_refusal;
use std::rt::Files;
use text::Cursor;

impl<'a, R: Print + Files> Session<'a, R> {
    // Puts the log that word 1 of a line names into the buffer: a file, or the block that was written last.
    fn put_log(&self, line: &[u8], buf: &mut [u8]) -> Result<usize, Problem>
        ensures { IfOk result (λ n. IsPrefixLen n buf.new) }
    {
        let name = lines::word(line, 1);
        if !lines::same(name, b"written") {
            return input::read_file(self.rt, name, buf).map_err(|_| Problem::NotRead);
        }
        let bits = self.written.ok_or(Problem::NotWritten)?;
        let mut log = Cursor::new(buf, 0);
        log.put_text(&bits);
        Ok(log.at())
    }

    // Feeds the block at a place, and prints the answer.
    fn feed(&mut self, log: &[u8], p: usize, satellite: usize) {
        let answer = self.collector.feed(log, p, satellite);
        commands::print_fed(self.rt, p, satellite, answer);
    }

    // Feeds each block on the walk: finds the next one, feeds it, and goes on 300 places after its place. The last line is the refusal of the
    // search that ends the walk, so that it is no loop over the blocks alone.
    fn feed_all(&mut self, log: &[u8], satellite: usize) {
        let mut p = 0;
        loop {
            match search::find(log, p) {
                Ok(q) => {
                    self.feed(log, q, satellite);
                    p = q + block::BLOCK_STEP;
                }
                Err(refusal) => {
                    print_refusal(self.rt, refusal);
                    return;
                }
            }
        }
    }

    // Does a command on the log that the line names.
    pub(crate) fn on_log(&mut self, command: OnLog, request: Request<'_>) -> Result<(), Problem> {
        let mut log = input::log_buffer();
        let length = self.put_log(request.line, &mut log)?;
        let log = &log[..length];
        let first = request.first as usize;
        let rt = self.rt;
        match command {
            OnLog::Check => commands::check(rt, log, first),
            OnLog::Find => commands::find(rt, log, first),
            OnLog::List => {
                let _ = console::print_listing(rt, log);
            }
            OnLog::Read => commands::read(rt, log, first),
            OnLog::Words => commands::words(rt, log, first),
            OnLog::Feed => self.feed(log, first, request.second as usize),
            OnLog::FeedAll => self.feed_all(log, first),
        }
        Ok(())
    }
}
