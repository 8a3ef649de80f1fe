// What a chip does with its inputs: power on, levels, requests and acknowledges.
ghost use Rattle.std.specs.Prelude.{◌≡◌};
ghost use Rattle.rules.specs.I8259 as rules;
ghost use Rattle.i8259.specs.Priority.{Requesting};
ghost use Rattle.i8259.specs.Views.{standing};

use super::{Chip, LAST_INPUT, Selection, Stage};
use crate::bit::Input;
use crate::priority::{first_after, rank};

impl Chip {
    pub fn power_on() -> Chip
        ensures { result ≡ rules.power_on_chip }
    {
        Chip::with_inputs(0)
    }

    // A chip at power on whose inputs already stand at their levels.
    pub fn with_inputs(levels: u8) -> Chip
        ensures { result ≡ standing levels }
    {
        Chip {
            inputs: levels,
            irr: 0,
            isr: 0,
            imr: 0,
            base: 0,
            lowest: LAST_INPUT,
            selection: Selection::Irr,
            stage: Stage::Idle,
        }
    }

    // Gives all inputs their levels: a rise sets the input's IRR bit, a fall clears it.
    pub fn drive_all(&mut self, levels: u8)
        ensures { self.new ≡ rules.drive_below 8 (rules.bit levels) self.old }
    {
        let rises = levels & !self.inputs;
        let falls = self.inputs & !levels;
        self.irr = (self.irr | rises) & !falls;
        self.inputs = levels;
    }

    // The requesting input: an unmasked request that comes before everything in service.
    pub fn request(&self) -> Option<Input>
        ensures asked { result ≡ rules.request self.now }
        ensures law { Requesting self.now result }
    {
        if self.stage != Stage::Ready {
            return None;
        }
        let asking = first_after(self.lowest, self.irr & !self.imr)?;
        let place = rank(self.lowest, asking);
        let serving = first_after(self.lowest, self.isr);
        let comes_first = serving.is_none_or(|served| place < rank(self.lowest, served));
        comes_first.then_some(asking)
    }

    pub fn requests(&self) -> bool
        ensures { result ≡ rules.requests self.now }
    {
        // Mostly nothing is asked for at all.
        self.irr & !self.imr != 0 && self.request().is_some()
    }

    // Answers with a vector. The requesting input moves from the IRR to the ISR; where none requests, nothing changes.
    pub fn acknowledge(&mut self) -> u8
        ensures vector { result ≡ rules.chip_vector self.old }
        ensures served { self.new ≡ rules.chip_acknowledged self.old }
    {
        match self.request() {
            Some(i) => {
                self.irr = i.clear(self.irr);
                self.isr = i.set(self.isr);
                self.base + u8::from(i)
            }
            None => self.base + u8::from(LAST_INPUT),
        }
    }
}
