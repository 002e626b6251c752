// Stepping a bus: an event, a period, a run of periods.
ghost use Rattle.std.specs.Prelude.{◌≡◌};
ghost use Rattle.bus_rules.specs.Calls.Call.{event as eventCall, period as periodCall};
ghost use Rattle.host_steps.specs.Stepping as spec;

// Gives the room that the notes of any call need, their end included.
#[unsafe(no_mangle)]
pub extern "C" fn sbus_notes_length() -> usize
    ensures { result ≡ spec.notes_room }
{
    host_steps::notes::sbus_notes_length()
}

// Gives the bus an event: any unit number, any event number, any value.
#[unsafe(no_mangle)]
pub extern "C" fn sbus_event(
    bus: &mut [u8],
    notes: &mut [u8],
    unit: u32,
    event: u32,
    value: &[u8],
) -> u32
    ensures value { result ≡ spec.host_reply bus.old notes.old (eventCall unit event value.now) }
    ensures bus_after { bus.new ≡ spec.host_bus bus.old notes.old (eventCall unit event value.now) }
    ensures notes_after { notes.new
        ≡ spec.host_notes bus.old notes.old (eventCall unit event value.now) }
{
    host_steps::stepping::sbus_event(bus, notes, unit, event, value)
}

// Runs one period.
#[unsafe(no_mangle)]
pub extern "C" fn sbus_period(bus: &mut [u8], notes: &mut [u8]) -> u32
    ensures value { result ≡ spec.host_reply bus.old notes.old periodCall }
    ensures bus_after { bus.new ≡ spec.host_bus bus.old notes.old periodCall }
    ensures notes_after { notes.new ≡ spec.host_notes bus.old notes.old periodCall }
{
    host_steps::stepping::sbus_period(bus, notes)
}

// Runs periods until `until` of them have been run since the bus was fresh or one hands back notes.
#[unsafe(no_mangle)]
pub extern "C" fn sbus_run(bus: &mut [u8], notes: &mut [u8], until: u32) -> u32
    ensures value { result ≡ spec.host_run_reply bus.old notes.old (spec.most_to until bus.old) }
    ensures bus_after { bus.new ≡ spec.host_run_bus bus.old notes.old (spec.most_to until bus.old) }
    ensures notes_after { notes.new
        ≡ spec.host_run_notes bus.old notes.old (spec.most_to until bus.old) }
{
    host_steps::stepping::sbus_run(bus, notes, until)
}
