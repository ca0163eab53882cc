//! Bytes of registers and their bits, and the marks that driver and bus leave on a port.

use sja_regs::{Command, Interrupts, Mode, Port, Status};

#[test]
fn bytes_say_a_mode_and_a_command(rt: HostRuntime) {
    let mode = Mode {
        rm: true,
        lom: false,
        stm: true,
        afm: false,
    };
    assert!(rt; Mode::of(0xf5) == mode);
    assert!(rt; mode.byte() == 0x05);
    let command = Command {
        tr: false,
        at: true,
        rrb: false,
        cdo: false,
        srr: true,
    };
    assert!(rt; Command::of(0xf2) == command);
    assert!(rt; command.requests());
    assert!(rt; !Command::of(0x0e).requests());
}

#[test]
fn a_byte_says_which_interrupts_it_means(rt: HostRuntime) {
    let mut interrupts = Interrupts::none();
    interrupts.doi = true;
    interrupts.bei = true;
    assert!(rt; interrupts.byte() == 0x88);
    assert!(rt; Interrupts::of(0x88) == interrupts);
}

#[test]
fn status_bits_make_a_byte(rt: HostRuntime) {
    let status = Status {
        rbs: true,
        dos: true,
        tbs: true,
        tcs: true,
        rs: false,
        ts: false,
        es: false,
        bs: true,
    };
    assert!(rt; status.byte() == 0x8f);
}

#[test]
fn driver_and_bus_leave_marks(rt: HostRuntime) {
    let mut port = Port::new(1);
    assert!(rt; !port.closed());
    assert!(rt; !port.orders().ended);
    port.close();
    assert!(rt; port.closed());
    port.finish();
    assert!(rt; port.orders().ended);
}
