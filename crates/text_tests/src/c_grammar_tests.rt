// Some symbols as C spells them.
use c_grammar::symbol::Symbol;

#[test]
fn symbols_are_spelled_as_in_c(rt: HostRuntime) {
    let spelled: [(Symbol, &[u8]); 4] = [
        (Symbol::UnderscoreBool, b"_Bool"),
        (Symbol::Uint16, b"uint16_t"),
        (Symbol::RightShiftAssign, b">>="),
        (Symbol::AmpersandAmpersand, b"&&"),
    ];
    for (symbol, text) in spelled {
        assert!(rt; symbol.text() == text);
    }
}
