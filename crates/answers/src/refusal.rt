// Why texts are refused.
use chk_base::place::Place;

/// Why texts are refused. A text is too long; it has its first fault at this place, or breaks the rule of this number there, rules A of the OIL
/// text, C of the C text and S of both; its count of points or of bits of cells, its weight by turns, or those bits by turns are this number and
/// past their limit; or, as `FormC`, it asks for an input at this place, which no run takes.
#[derive(Clone, Copy, PartialEq, Eq, Debug)]
pub enum Refusal {
    OilByte(Place),
    OilToken(Place),
    OilEnd(Place),
    OilRule(u8, Place),
    CByte(Place),
    CDirective(Place),
    CNumber(Place),
    CDepth(Place),
    CToken(Place),
    CEnd(Place),
    CRule(u8, Place),
    StaticRule(u8, Place),
    FormC(Place),
    Points(u64),
    Cells(u64),
    Size(u64),
    State(u64),
    LongOil,
    LongC,
    LongSchedule,
    LongCert,
    ScheduleLine(Place),
    CertByte(Place),
    CertToken(Place),
    CertEnd(Place),
}
