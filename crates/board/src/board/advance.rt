// The passing of time: jumps to the ticks on which something may happen. Jumps are inlined, which saves about a twentieth of the time that
// an edge takes.
ghost use Rattle.std.specs.Prelude.{◌≡◌, ℕ, ◌+◌, ◌-◌, ◌^◌, ◌<◌, ◌≤◌};
ghost use Rattle.rules.specs.Device.{horizon};
ghost use Rattle.rules.specs.Board as rules;
ghost use Rattle.board_laws.specs.Jump.{Idle, later};
ghost use Rattle.board.specs.Steps.{CarriesNext, CarriesOut, Jumps, Arrives, Runs, Passes, to_write};
ghost use Rattle.agenda.specs.Waiting.{waiting};
ghost use Rattle.board.specs.Deadlines.{comes_before, Watched};
ghost use Rattle.board.specs.Answers.{of_advance};
ghost use Rattle.board.specs.View.{view, Does};

use super::deadlines::{Deadline, Deadlines};
use super::{Board, END_OF_TIME, quiet_after};
use device::HORIZON;
use rules::{Call, Refusal};
use slots::Slots;

impl<'a, F: Slots> Board<'a, F> {
    // Carries out the first pending write, if it is due now, and answers the edges of its handing.
    fn carry_next(&mut self) -> Option<u64>
        ensures { CarriesNext F.states F.fitting result self.old self.new }
    {
        let write = self.queue.first().filter(|write| write.tick == self.time)?;
        let _ = self.queue.take();
        let target = F::target(write.port);
        self.ports.write(target, write.byte);
        self.quiet_until = quiet_after(target, self.quiet_until);
        Some(self.ports.hand_over())
    }

    // Carries out all writes that are due now, and answers the edges of their handings.
    fn carry_out(&mut self) -> u64
        ensures { CarriesOut F.states F.fitting result self.old self.new }
    {
        let mut edges = 0;
        while let Some(more) = self.carry_next() {
            edges += more;
        }
        edges
    }

    // Jumps n ticks on, on which no level changes. A handing would do nothing there, since the board is settled, and is left out.
    #[inline(always)]
    fn jump_quietly(&mut self, n: u64)
        requires near { n ≤ horizon }
        requires quiet { self.old.time + n < self.old.quiet_until }
        ensures moved { view F.states self.new ≡ later F.fitting n (view F.states self.old) }
        ensures queue { self.new.queue ≡ self.old.queue }
    {
        self.ports.slots.skip(n);
        self.time += n;
    }

    // Jumps k ticks on: the devices skip them, and the levels are handed over once. Answers the edges of the handing.
    #[inline(always)]
    fn jump(&mut self, k: u64) -> u64
        requires near { k ≤ horizon }
        requires time { self.old.time + k < 2 ^ 62 }
        ensures jumps { Jumps F.states F.fitting k result self.old self.new }
        ensures time { self.new.time ≡ self.old.time + k }
        ensures queue { self.new.queue ≡ self.old.queue }
    {
        if self.time + k < self.quiet_until {
            self.jump_quietly(k);
            return 0;
        }
        self.ports.slots.skip(k);
        self.time += k;
        self.ports.hand_over()
    }

    // Jumps k ticks on, and then carries out the writes that are due. Answers the edges of all the handings.
    #[inline(always)]
    fn arrive(&mut self, k: u64) -> u64
        requires near { k ≤ horizon }
        requires time { self.old.time + k < 2 ^ 62 }
        ensures { Arrives F.states F.fitting k result self.old self.new }
    {
        let edges = self.jump(k);
        edges + self.carry_out()
    }

    // Strides and stretches are plain numbers, 1 to 2^32: a type of its own would stand in the way of each minimum and difference.

    // How far time may jump without passing a pending write: at most `left` ticks.
    fn until_write(&self, left: u64) -> u64
        requires { 1 ≤ left }
        ensures some { 1 ≤ result }
        ensures most { result ≤ left }
        ensures idle { Idle F.fitting (result - 1) (view F.states self.now) }
        ensures nearest { result ≡ to_write (view F.states self.now).time left (view F.states self.now).pending }
    {
        match self.queue.first() {
            Some(write) if self.time < write.tick => left.min(write.tick - self.time),
            _ => left,
        }
    }

    // Has every slot announce.
    fn deadlines<'n>(&self, nodes: &'n mut [Deadline; 4]) -> Deadlines<'n>
        requires time { self.now.time < 2 ^ 62 }
        ensures { (n ahead : ℕ) → n < 4 → ahead ≤ horizon + 1 → Watched F.fitting n ahead self.now.time (waiting comes_before result.agenda) (F.states self.now.ports.slots) }
    {
        Deadlines::new(nodes, &self.ports.slots, self.time)
    }

    // Lets ticks pass of which no write is due before the last, and answers their edges: in one jump where no level changes, and else
    // from deadline to deadline.
    fn run_stretch(&mut self, ticks: u64) -> u64
        requires some { 1 ≤ ticks }
        requires near { ticks ≤ horizon }
        requires time { self.old.time + ticks < 2 ^ 62 }
        requires idle { Idle F.fitting (ticks - 1) (view F.states self.old) }
        ensures { Runs F.states F.fitting ticks result self.old self.new }
    {
        let end = self.time + ticks;
        if end <= self.quiet_until {
            return self.arrive(ticks);
        }
        // What is announced now holds before this tick.
        let known = self.time + HORIZON + 1;
        let mut nodes = [Deadline::UNUSED; 4];
        let mut deadlines = self.deadlines(&mut nodes);
        let mut edges = 0;
        loop {
            let change = deadlines.next(&self.ports.slots, self.time, known);
            self.quiet_until = change;
            if end <= change {
                return edges + self.arrive(end - self.time);
            }
            edges += self.jump(change - self.time);
        }
    }

    // Lets the ticks pass, from write to write, and answers their edges. No range counts the stretches, since each depends on what the
    // one before it did. In a function of its own it leaves an advance on which nothing happens small.
    #[inline(never)]
    fn run(&mut self, ticks: u64) -> u64
        requires near { ticks ≤ horizon }
        requires time { 1 ≤ ticks → self.old.time + ticks < 2 ^ 62 }
        ensures { Runs F.states F.fitting ticks result self.old self.new }
    {
        let mut left = ticks;
        let mut edges = 0;
        while left > 0 {
            let stretch = self.until_write(left);
            edges += self.run_stretch(stretch);
            left -= stretch;
        }
        edges
    }

    // Lets n ticks pass if nothing happens on any of them, and answers whether it did so. Most short advances come to no more.
    fn pass_quietly(&mut self, n: u64) -> bool
        requires near { n ≤ horizon }
        requires time { 1 ≤ n → self.old.time + n < 2 ^ 62 }
        ensures { Passes F.states F.fitting n result self.old self.new }
    {
        if self.quiet_until <= self.time + n || self.until_write(n + 1) <= n {
            return false;
        }
        self.jump_quietly(n);
        true
    }

    // Lets n ticks pass and answers how many edges they had.
    pub fn advance(&mut self, n: u64) -> Result<u64, Refusal>
        ensures { Does F.states F.fitting (Call.Advance n) self.old (of_advance result) self.new }
    {
        if HORIZON < n {
            return Err(Refusal::LongAdvance);
        }
        // A ghost field that time is within its end would serve this one difference alone, so it saturates.
        if END_OF_TIME.saturating_sub(self.time) < n {
            return Err(Refusal::PastEnd);
        }
        if self.pass_quietly(n) {
            return Ok(0);
        }
        Ok(self.run(n))
    }
}
