use piletexts::Command;
use runs::Call;
use scripts::{MediumCommand, Statement, hex_bytes, read_statement};
use std::test::Fail;

#[test]
fn pile_commands_are_read(rt: HostRuntime) {
    let lines: [(&[u8], Command); 4] = [
        (b"table", Command::Table),
        (b"poll 2 3", Command::Poll(2, 3)),
        (b"after", Command::After),
        (b"beside", Command::Beside),
    ];
    for (line, command) in lines {
        assert_eq!(rt; read_statement(line), Some(Statement::Pile(command)));
    }
}

#[test]
fn a_chart_text_is_announced(rt: HostRuntime) {
    assert_eq!(rt; read_statement(b"text"), Some(Statement::Text));
    let lines: [&[u8]; 6] = [b"text ", b" text", b"Text", b"texts", b"tex", b"text 1"];
    for line in lines {
        assert_eq!(rt; read_statement(line), None);
    }
}

#[test]
fn medium_commands_are_read(rt: HostRuntime) {
    let lines: [(&[u8], MediumCommand); 5] = [
        (b"free", MediumCommand::Free),
        (b"line", MediumCommand::Line),
        (b"narrow 0", MediumCommand::Narrow(0)),
        (b"narrow 255", MediumCommand::Narrow(255)),
        (b"narrow 007", MediumCommand::Narrow(7)),
    ];
    for (line, command) in lines {
        assert_eq!(rt; read_statement(line), Some(Statement::Medium(command)));
    }
}

#[test]
fn calls_are_read(rt: HostRuntime) {
    let lines: [(&[u8], Call, usize); 11] = [
        (b"step 0", Call::Step(0), 0),
        (b"step 255", Call::Step(255), 0),
        (b"drive 4 6", Call::Drive(4), 6),
        (b"drive 65535 0", Call::Drive(65_535), 0),
        (b"drive 0 65535", Call::Drive(0), 65_535),
        (b"restart", Call::Restart, 0),
        (b"judge 32", Call::Judge, 32),
        (b"judge 65535", Call::Judge, 65_535),
        (b"latest 1 2", Call::Latest(1, 2), 0),
        (b"latest 255 65535", Call::Latest(255, 65_535), 0),
        (b"latest 02 0001", Call::Latest(2, 1), 0),
    ];
    for (line, call, room) in lines {
        assert_eq!(rt; read_statement(line), Some(Statement::Call(call, room)));
    }
}

#[test]
fn logs_are_read(rt: HostRuntime) {
    let lines: [(&[u8], &[u8]); 5] = [
        (b"log", b""),
        (b"log 00", b"00"),
        (b"log 0123456789", b"0123456789"),
        (b"log abcdefABCDEF", b"abcdefABCDEF"),
        (b"log fFaA90", b"fFaA90"),
    ];
    for (line, digits) in lines {
        assert_eq!(rt; read_statement(line), Some(Statement::Log(digits)));
    }
}

#[test]
fn what_is_no_log(rt: HostRuntime) {
    let lines: [&[u8]; 16] = [
        // not an even number of digits, or none behind a space
        b"log 0",
        b"log 012",
        b"log ",
        // bytes beside the digits
        b"log 0g",
        b"log G0",
        b"log /0",
        b"log 0:",
        b"log @0",
        b"log 0`",
        b"log 0x",
        b"log -1",
        // spaces, and another word
        b"log  00",
        b"log 00 ",
        b"log 00 00",
        b"log00",
        b"Log 00",
    ];
    for line in lines {
        assert_eq!(rt; read_statement(line), None);
    }
}

#[test]
fn digits_write_bytes(rt: HostRuntime) -> Result<(), Fail> {
    let cases: [(&[u8], &[u8]); 6] = [
        (b"", &[]),
        (b"00", &[0]),
        (b"0f10Ff", &[15, 16, 255]),
        (b"09aAfF9a", &[9, 170, 255, 154]),
        // no bytes from what is no digit on
        (b"012", &[1]),
        (b"01x203", &[1]),
    ];
    for (digits, bytes) in cases {
        let read = hex_bytes(rt.alloc(), digits)?;
        assert_eq!(rt; read.as_slice(), bytes);
    }
    Ok(())
}

#[test]
fn what_is_no_medium_command(rt: HostRuntime) {
    let lines: [&[u8]; 12] = [
        b"free ",
        b" free",
        b"Free",
        b"free 1",
        b"line 0",
        b"narrow",
        b"narrow ",
        b"narrow 256",
        b"narrow 1 1",
        b"narrow  1",
        b"narrow -1",
        b"narrow 1 x",
    ];
    for line in lines {
        assert_eq!(rt; read_statement(line), None);
    }
}

#[test]
fn what_is_no_call(rt: HostRuntime) {
    let lines: [&[u8]; 20] = [
        b"step",
        b"step 256",
        b"step 1 ",
        b"step 1 1",
        b"step x",
        b"drive 4",
        b"drive 4 ",
        b"drive  4 4",
        b"drive 65536 0",
        b"drive 0 65536",
        b"drive 4 4 4",
        b"restart 0",
        b"restart ",
        b"judge",
        b"judge 65536",
        b"judge 32 32",
        b"latest 1",
        b"latest 256 0",
        b"latest 0 65536",
        b"latest 1 1 1",
    ];
    for line in lines {
        assert_eq!(rt; read_statement(line), None);
    }
}

#[test]
fn what_is_no_statement(rt: HostRuntime) {
    let lines: [&[u8]; 6] = [b"", b" ", b".", b"poll 256 1", b"step\t1", b"stop"];
    for line in lines {
        assert_eq!(rt; read_statement(line), None);
    }
}
