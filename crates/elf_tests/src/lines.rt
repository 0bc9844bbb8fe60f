//! How a long name is written.
use crate::script::FaultScript;
use crate::source_tests::printer_sink;
use elf_format::show_symbol;
use elf_model::Format;
use elf_record::Sym;
use elf_source::Out;

const MAIN: Sym = Sym {
    st_name: 1,
    st_info: 0x12,
    st_other: 0,
    st_shndx: 0xfff1,
    st_value: 0x1000,
    st_size: 0x10,
};

#[test]
fn a_long_name_is_written_in_pieces(rt: HostRuntime) {
    let script = FaultScript::new();
    let mut out = Out::new(printer_sink(999, &script, rt.alloc()));
    let name = [0x7f; 300];
    assert!(rt; show_symbol(1, 1, &MAIN, &name, Format::Columns, &mut out) == Ok(()));
    // Five times 256 bytes, and the rest.
    assert!(rt; script.calls() == 6);
    let printer = out.into_inner().into_inner();
    let text = printer.written.as_slice();
    assert!(rt; text.len() == 1285);
    for k in 0..300 {
        assert!(rt; &text[84 + 4 * k..88 + 4 * k] == b"\\x7f".as_slice());
    }
    assert!(rt; text[1284] == b'\n');
}
