// A chip's registers, for showing its state.
ghost use Rattle.std.specs.Prelude.{◌≡◌, ◌%◌, ◌<◌};

use super::Chip;

impl Chip {
    pub fn irr(&self) -> u8
        ensures { result ≡ self.now.irr }
    {
        self.irr
    }

    pub fn isr(&self) -> u8
        ensures { result ≡ self.now.isr }
    {
        self.isr
    }

    pub fn imr(&self) -> u8
        ensures { result ≡ self.now.imr }
    {
        self.imr
    }

    // The vector of input 0.
    pub fn base(&self) -> u8
        ensures value { result ≡ self.now.base }
        ensures of_eight { result % 8 ≡ 0 }
    {
        self.base
    }

    // The number of the input of lowest priority.
    pub fn lowest(&self) -> u8
        ensures value { result ≡ self.now.lowest }
        ensures input { result < 8 }
    {
        u8::from(self.lowest)
    }
}
