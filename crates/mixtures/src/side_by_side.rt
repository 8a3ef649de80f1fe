// One mixture on six new boards: as it is, with advances cut, and with another device in each of the four slots.
ghost use Rattle.rules.specs.Mixtures.{CuttingChangesNothing, ExchangingSlot0, ExchangingSlot1, ExchangingSlot2, ExchangingSlot3};
ghost use Rattle.mixtures.specs.Runs.{RunsNew, mixture};

use crate::steps::{Step, run_new};
use board::Board;
use device::Device;
use rules::QueuedWrite;
use slots::{Fitted, Slots};

// The boards as the calls left them.
#[derive(Drop)]
pub struct SideBySide<'n, F: Slots, G0: Slots, G1: Slots, G2: Slots, G3: Slots> {
    pub whole: Board<'n, F>,
    pub cut: Board<'n, F>,
    // In slot n of `exchanged_n` stands another device.
    pub exchanged_0: Board<'n, G0>,
    pub exchanged_1: Board<'n, G1>,
    pub exchanged_2: Board<'n, G2>,
    pub exchanged_3: Board<'n, G3>,
}

// Makes six boards and runs a mixture of calls on each.
pub fn run_side_by_side<
    'n,
    D0: Device,
    D1: Device,
    D2: Device,
    D3: Device,
    E0: Device,
    E1: Device,
    E2: Device,
    E3: Device,
>(
    slots: Fitted<D0, D1, D2, D3>,
    nodes: &'n mut [QueuedWrite],
    steps: &mut [Step],
    cut_slots: Fitted<D0, D1, D2, D3>,
    cut_nodes: &'n mut [QueuedWrite],
    cut_steps: &mut [Step],
    slots_0: Fitted<E0, D1, D2, D3>,
    nodes_0: &'n mut [QueuedWrite],
    steps_0: &mut [Step],
    slots_1: Fitted<D0, E1, D2, D3>,
    nodes_1: &'n mut [QueuedWrite],
    steps_1: &mut [Step],
    slots_2: Fitted<D0, D1, E2, D3>,
    nodes_2: &'n mut [QueuedWrite],
    steps_2: &mut [Step],
    slots_3: Fitted<D0, D1, D2, E3>,
    nodes_3: &'n mut [QueuedWrite],
    steps_3: &mut [Step],
) -> SideBySide<
    'n,
    Fitted<D0, D1, D2, D3>,
    Fitted<E0, D1, D2, D3>,
    Fitted<D0, E1, D2, D3>,
    Fitted<D0, D1, E2, D3>,
    Fitted<D0, D1, D2, E3>,
>
    // Each board does the same as ticking.
    ensures whole { RunsNew ⟦<Fitted<D0, D1, D2, D3> as Slots>⟧ slots nodes.entry steps.old steps.new result.whole }
    ensures cut { RunsNew ⟦<Fitted<D0, D1, D2, D3> as Slots>⟧ cut_slots cut_nodes.entry cut_steps.old cut_steps.new result.cut }
    ensures exchanged_0 { RunsNew ⟦<Fitted<E0, D1, D2, D3> as Slots>⟧ slots_0 nodes_0.entry steps_0.old steps_0.new result.exchanged_0 }
    ensures exchanged_1 { RunsNew ⟦<Fitted<D0, E1, D2, D3> as Slots>⟧ slots_1 nodes_1.entry steps_1.old steps_1.new result.exchanged_1 }
    ensures exchanged_2 { RunsNew ⟦<Fitted<D0, D1, E2, D3> as Slots>⟧ slots_2 nodes_2.entry steps_2.old steps_2.new result.exchanged_2 }
    ensures exchanged_3 { RunsNew ⟦<Fitted<D0, D1, D2, E3> as Slots>⟧ slots_3 nodes_3.entry steps_3.old steps_3.new result.exchanged_3 }

    // Cutting changes nothing.
    ensures cutting { CuttingChangesNothing
        (mixture ⟦<Fitted<D0, D1, D2, D3> as Slots>⟧ slots nodes.entry steps.old steps.new result.whole)
        (mixture ⟦<Fitted<D0, D1, D2, D3> as Slots>⟧ cut_slots cut_nodes.entry cut_steps.old cut_steps.new result.cut) }

    // Nor does exchanging a device for one that shows the same levels, in any of the slots.
    ensures exchanging_0 { ExchangingSlot0 ⟦<Fitted<D0, D1, D2, D3> as Slots>⟧.fitting ⟦<Fitted<E0, D1, D2, D3> as Slots>⟧.fitting
        (mixture ⟦<Fitted<D0, D1, D2, D3> as Slots>⟧ slots nodes.entry steps.old steps.new result.whole)
        (mixture ⟦<Fitted<E0, D1, D2, D3> as Slots>⟧ slots_0 nodes_0.entry steps_0.old steps_0.new result.exchanged_0) }
    ensures exchanging_1 { ExchangingSlot1 ⟦<Fitted<D0, D1, D2, D3> as Slots>⟧.fitting ⟦<Fitted<D0, E1, D2, D3> as Slots>⟧.fitting
        (mixture ⟦<Fitted<D0, D1, D2, D3> as Slots>⟧ slots nodes.entry steps.old steps.new result.whole)
        (mixture ⟦<Fitted<D0, E1, D2, D3> as Slots>⟧ slots_1 nodes_1.entry steps_1.old steps_1.new result.exchanged_1) }
    ensures exchanging_2 { ExchangingSlot2 ⟦<Fitted<D0, D1, D2, D3> as Slots>⟧.fitting ⟦<Fitted<D0, D1, E2, D3> as Slots>⟧.fitting
        (mixture ⟦<Fitted<D0, D1, D2, D3> as Slots>⟧ slots nodes.entry steps.old steps.new result.whole)
        (mixture ⟦<Fitted<D0, D1, E2, D3> as Slots>⟧ slots_2 nodes_2.entry steps_2.old steps_2.new result.exchanged_2) }
    ensures exchanging_3 { ExchangingSlot3 ⟦<Fitted<D0, D1, D2, D3> as Slots>⟧.fitting ⟦<Fitted<D0, D1, D2, E3> as Slots>⟧.fitting
        (mixture ⟦<Fitted<D0, D1, D2, D3> as Slots>⟧ slots nodes.entry steps.old steps.new result.whole)
        (mixture ⟦<Fitted<D0, D1, D2, E3> as Slots>⟧ slots_3 nodes_3.entry steps_3.old steps_3.new result.exchanged_3) }
{
    SideBySide {
        whole: run_new(slots, nodes, steps),
        cut: run_new(cut_slots, cut_nodes, cut_steps),
        exchanged_0: run_new(slots_0, nodes_0, steps_0),
        exchanged_1: run_new(slots_1, nodes_1, steps_1),
        exchanged_2: run_new(slots_2, nodes_2, steps_2),
        exchanged_3: run_new(slots_3, nodes_3, steps_3),
    }
}
