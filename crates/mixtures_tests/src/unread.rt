// A device around another one, which no read reaches.
ghost use Rattle.std.specs.Prelude.{◌≡◌, refl};
ghost use Rattle.mixtures_tests.specs.Unread.{unread, unread_byte, unread_lawful};

use device::{Device, NO_BYTE};

const WIDTH: u16 = 8;

// The byte at offset 0; the next ones count on from it.
const FIRST_BYTE: u8 = 0xA0;

// It has eight ports, however many the inner device has, and a read of them gives bytes of its own. Ticks, level and writes are the
// inner device's.
#[derive(Drop)]
pub struct Unread<D: Device> {
    inner: D,
}

impl<D: Device> Unread<D> {
    pub fn new(inner: D) -> Self
        ensures { result.inner ≡ inner }
    {
        Unread { inner }
    }
}

// The byte that a read of the offset gives.
fn byte_at(offset: u16) -> u8
    ensures { result ≡ unread_byte offset }
{
    if offset < WIDTH {
        FIRST_BYTE + offset as u8
    } else {
        NO_BYTE
    }
}

impl<D: Device> Device for Unread<D> {
    const WIDTH: u16 = WIDTH;

    ghost WIDTH = { 8 };

    ghost State = { D.Device.State };

    ghost meaning = { unread D.Device.meaning };

    ghost state = { λ d. D.Device.state d.inner };

    fn skip(&mut self, n: u64) {
        self.inner.skip(n);
    }

    fn announce(&self) -> Option<u64> {
        self.inner.announce()
    }

    fn level(&self) -> bool {
        self.inner.level()
    }

    fn read(&mut self, offset: u16) -> u8 {
        byte_at(offset)
    }

    fn write(&mut self, offset: u16, byte: u8) {
        self.inner.write(offset, byte);
    }

    ghost width_meant = { refl };

    ghost lawful = { unread_lawful D.Device.meaning D.Device.lawful };
}
