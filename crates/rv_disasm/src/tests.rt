use super::*;
use rv_assembler::assemble;
use std::alloc::Global;
use std::process::Abort;

// The bytes from 0 on are listed as these lines, which are assembled to the bytes.
fn lists(rt: &impl Abort, alloc: Global, bytes: &[u8], want: &str) {
    assert!(rt; bytes.len() <= 4, "{want}");
    let text = disassemble(alloc, bytes, 0).expect(rt, want);
    assert_eq!(rt; text.bytes(), want.as_bytes());
    let source = format!(in alloc; ".entry 0\n.org 0\n{want}").expect(rt, "memory");
    let assembled = assemble(alloc, source.as_bytes()).expect(rt, want);
    assert_eq!(rt; assembled.image.len(), 1);
    assert_eq!(rt; assembled.image.bytes(0), bytes);
}

#[test]
fn words_that_are_no_instructions(rt: HostRuntime) {
    let cases: [(&[u8], &str); 8] = [
        (&[0x0F, 0x00, 0xF0, 0x0F], "fence iorw, iorw\n"),
        // The register field is ignored, so that the word isn't canonical.
        (&[0x8F, 0x00, 0xF0, 0x0F], ".word 0x0FF0008F\n"),
        // Three bytes of which the first two could begin an instruction.
        (&[0x13, 0x05, 0x50], ".half 0x0513\n.byte 0x50\n"),
        (&[0x00, 0x00], ".half 0x0000\n"),
        (&[0xFF, 0xFF, 0xFF, 0xFF], ".word 0xFFFFFFFF\n"),
        (&[0xAB], ".byte 0xAB\n"),
        (&[0x0F, 0x00, 0x00, 0x00], "fence 0, 0\n"),
        (&[0x0F, 0x00, 0xA0, 0x09], "fence iw, ir\n"),
    ];
    for (bytes, want) in cases {
        lists(&rt, rt.alloc(), bytes, want);
    }
}

#[test]
fn instructions_of_32_bits(rt: HostRuntime) {
    let cases: [(&[u8], &str); 12] = [
        (&[0x37, 0x55, 0x34, 0x12], "lui a0, 0x12345\n"),
        (&[0x97, 0xF5, 0xFF, 0xFF], "auipc a1, 0xFFFFF\n"),
        (&[0xEF, 0x00, 0x10, 0x00], "jal ra, 0x00000800\n"),
        (&[0x67, 0x85, 0xC5, 0xFF], "jalr a0, -4(a1)\n"),
        (&[0x63, 0x00, 0xB5, 0x80], "beq a0, a1, 0xFFFFF000\n"),
        (&[0x03, 0x25, 0xF1, 0x7F], "lw a0, 2047(sp)\n"),
        (&[0xA3, 0x0F, 0xA1, 0xFE], "sb a0, -1(sp)\n"),
        (&[0x13, 0x05, 0xA0, 0x00], "addi a0, zero, 10\n"),
        (&[0x73, 0x25, 0x00, 0x30], "csrrs a0, mstatus, zero\n"),
        (&[0x73, 0xD0, 0x3F, 0x12], "csrrwi zero, 0x123, 31\n"),
        (&[0x73, 0x00, 0x20, 0x30], "mret\n"),
        (&[0x33, 0x05, 0x85, 0x02], "mul a0, a0, s0\n"),
    ];
    for (bytes, want) in cases {
        lists(&rt, rt.alloc(), bytes, want);
    }
}

#[test]
fn compressed_instructions(rt: HostRuntime) {
    let cases: [(&[u8], &str); 11] = [
        (&[0x01, 0x00], "c.nop\n"),
        (&[0x05, 0x00], "c.nop 1\n"),
        (&[0x7D, 0x55], "c.li a0, -1\n"),
        (&[0x01, 0x75], "c.lui a0, 0xFFFE0\n"),
        (&[0x39, 0x71], "c.addi16sp sp, -64\n"),
        (&[0x08, 0x08], "c.addi4spn a0, sp, 16\n"),
        (&[0x4C, 0xC1], "c.sw a1, 4(a0)\n"),
        (&[0x06, 0xC6], "c.swsp ra, 12(sp)\n"),
        (&[0x01, 0xA0], "c.j 0x00000000\n"),
        (&[0x82, 0x80], "c.jr ra\n"),
        (&[0x02, 0x90], "c.ebreak\n"),
    ];
    for (bytes, want) in cases {
        lists(&rt, rt.alloc(), bytes, want);
    }
}

#[test]
fn targets_are_addresses(rt: HostRuntime) {
    let text = disassemble(rt.alloc(), &[0xEF, 0x00, 0x10, 0x00], 0x8000_0000).expect(
        &rt, "memory",
    );
    assert_eq!(rt; text.bytes(), b"jal ra, 0x80000800\n".as_slice());
}

#[test]
fn a_whole_image(rt: HostRuntime) {
    let source = ".entry 64\n.org 0x20000000\n.byte 72\n.byte 105\n.byte 10\n.org 64\nc.j 64\n";
    let assembled = assemble(rt.alloc(), source.as_bytes()).expect(&rt, "an image");
    let text = disassemble_image(rt.alloc(), &assembled.image).expect(&rt, "memory");
    let want =
        ".entry 0x00000040\n.org 0x20000000\n.half 0x6948\n.byte 0x0A\n.org 0x00000040\nc.j 0x00000040\n";
    assert_eq!(rt; text.bytes(), want.as_bytes());
}
