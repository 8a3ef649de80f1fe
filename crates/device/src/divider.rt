// A device that lets another one tick at a fraction of its own rate.
ghost use Rattle.std.specs.Prelude.{◌≡◌, ◌+◌, ◌*◌, ◌/◌, ◌%◌, ◌<◌, ◌≤◌};
ghost use Rattle.rules.specs.Device.{Divided, Announces, divide, divided, horizon};
ghost use Rattle.rules.specs.TickLaws.{lagging, due_by, announces_prop, divided_lawful};

use crate::device::{Device, HORIZON};

// How long the inner device may be left as it is.
#[derive(Drop)]
struct Plan {
    // What it announces as it is.
    change: Option<u64>,
    // At so many ticks it has to be given its share of them.
    due: u64,
}

// The tick that ends a period of `factor` ticks makes the inner device tick. It is not made to at once: ticks are counted until they
// are due, so that most skips are a sum. There is no `impl Model`: its value would be made of the inner device's state, and a model's
// `Value` cannot name what belongs to a bound.
#[derive(Drop)]
pub struct Divider<D: Device> {
    factor: u64,
    // The ticks since the start of the period for which the inner device stands. Its level stays on them.
    since: u64,
    plan: Plan,
    inner: D,
    ghost bounded: { (1 ≤ factor) × (factor ≤ 64) },
    ghost announced: { Announces D.Device.meaning (D.Device.state inner) plan.change } by { announces_prop D.Device.meaning (D.Device.state inner) plan.change },
    ghost planned: { plan.due ≡ due_by factor plan.change },
    ghost early: { since < due_by factor plan.change },
}

// How often the divisor goes into the dividend, and what is left: its clauses are what proofs have to know of a division.
fn quotient_and_remainder(dividend: u64, divisor: u64) -> (u64, u64)
    requires { 1 ≤ divisor }
    ensures quotient { result.0 ≡ dividend / divisor }
    ensures remainder { result.1 ≡ dividend % divisor }
    ensures whole { result.0 * divisor + result.1 ≡ dividend }
    ensures below { result.1 < divisor }
{
    (dividend / divisor, dividend % divisor)
}

impl Plan {
    fn of<D: Device>(inner: &D, factor: u64) -> Self
        requires { (1 ≤ factor) × (factor ≤ 64) }
        ensures announced { Announces D.Device.meaning (D.Device.state inner.now) result.change }
        ensures due { result.due ≡ due_by factor result.change }
        ensures late { factor ≤ result.due }
    {
        let change = inner.announce();
        let due = match change {
            Some(ticks) => ticks * factor,
            // Until here the next 2^32 ticks hold no more than 2^32 of the inner device's.
            None => HORIZON * (factor - 1) + 1,
        };
        Plan { change, due }
    }
}

// Gives the inner device its share of the ticks, and answers how many of them that leaves in the last period.
#[inline(never)]
fn give_share<D: Device>(inner: &mut D, factor: u64, since: u64) -> u64
    requires some { 1 ≤ factor }
    requires near { since ≤ horizon * factor }
    ensures within { result < factor }
    ensures same { lagging D.Device.meaning factor result (D.Device.state inner.new) ≡ lagging D.Device.meaning factor since (D.Device.state inner.old) }
{
    let (ticks, phase) = quotient_and_remainder(since, factor);
    inner.skip(ticks);
    phase
}

// The same. Mostly less than a period is left, and then there is nothing to divide.
#[inline(always)]
fn catch_up<D: Device>(inner: &mut D, factor: u64, since: u64) -> u64
    requires some { 1 ≤ factor }
    requires near { since ≤ horizon * factor }
    ensures within { result < factor }
    ensures same { lagging D.Device.meaning factor result (D.Device.state inner.new) ≡ lagging D.Device.meaning factor since (D.Device.state inner.old) }
{
    if since < factor {
        since
    } else {
        give_share(inner, factor, since)
    }
}

impl<D: Device> Divider<D> {
    // Starts at phase 0. A factor outside 1 to 64 is taken as 1.
    pub fn new(factor: u64, inner: D) -> Self
        ensures { lagging D.Device.meaning result.factor result.since (D.Device.state result.inner) ≡ divide factor (D.Device.state inner) }
    {
        let factor = if (1..=64).contains(&factor) {
            factor
        } else {
            1
        };
        let plan = Plan::of(&inner, factor);
        Divider {
            factor,
            since: 0,
            plan,
            inner,
        }
    }

    // Goes on to so many ticks, at which the inner device is due: it is given the ticks that it announced, if any, without a
    // division, and then its share of the rest. In a function of its own it leaves a skip small.
    #[inline(never)]
    fn arrive(&mut self, since: u64)
        requires due { self.old.plan.due ≤ since }
        requires near { since < self.old.plan.due + horizon }
        ensures { lagging D.Device.meaning self.new.factor self.new.since (D.Device.state self.new.inner) ≡ lagging D.Device.meaning self.old.factor since (D.Device.state self.old.inner) }
    {
        let rest = match self.plan.change {
            Some(ticks) => {
                self.inner.skip(ticks);
                since - self.plan.due
            }
            None => since,
        };
        self.since = catch_up(&mut self.inner, self.factor, rest);
        self.plan = Plan::of(&self.inner, self.factor);
    }
}

impl<D: Device> Device for Divider<D> {
    const WIDTH: u16 = D::WIDTH;

    ghost WIDTH = { D.Device.WIDTH };

    ghost State = { Divided D.Device.State };

    ghost meaning = { divided D.Device.meaning };

    ghost state = { λ d. lagging D.Device.meaning d.factor d.since (D.Device.state d.inner) };

    #[inline(always)]
    fn skip(&mut self, n: u64) {
        let since = self.since + n.min(HORIZON);
        if since < self.plan.due {
            self.since = since;
        } else {
            self.arrive(since);
        }
    }

    fn announce(&self) -> Option<u64> {
        self.plan.change?;
        let left = self.plan.due - self.since;
        (left <= HORIZON).then_some(left)
    }

    fn level(&self) -> bool {
        self.inner.level()
    }

    fn read(&mut self, offset: u16) -> u8 {
        self.since = catch_up(&mut self.inner, self.factor, self.since);
        let byte = self.inner.read(offset);
        self.plan = Plan::of(&self.inner, self.factor);
        byte
    }

    fn write(&mut self, offset: u16, byte: u8) {
        self.since = catch_up(&mut self.inner, self.factor, self.since);
        self.inner.write(offset, byte);
        self.plan = Plan::of(&self.inner, self.factor);
    }

    ghost width_meant = { D.Device.width_meant };

    ghost lawful = { divided_lawful D.Device.meaning D.Device.lawful };
}
