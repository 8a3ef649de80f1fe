// The 8254 timer, which jumps over any number of ticks at once.
#![tactic(auto)]

mod channel;
mod channels;
mod control;
mod count;
mod counter;
mod forecast;
mod mode_0;
mod mode_2;
mod mode_3;
mod timer;
mod unloaded;
mod waves;

pub use timer::Timer;
pub use waves::wave_laws_hold;
