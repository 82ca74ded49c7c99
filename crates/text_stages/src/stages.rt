// The stages that read texts, one by one.
ghost use Rattle.std.specs.Prelude.{◌≡◌, ◌≤◌, [], length, IfOk, IfErr, OnOk};
ghost use Rattle.std.specs.Option.{option_copied};
ghost use Rattle.app_model.specs.Application.{application};
ghost use Rattle.application.specs.InOrder.{IsInOrder};
ghost use Rattle.c_lex.specs.CText.{IsCTokens};
ghost use Rattle.c_parse.specs.Parsed as parsed;
ghost use Rattle.c_rules.specs.UnitRules as c_rules;
ghost use Rattle.typed_unit.specs.Typed.{typed};
ghost use Rattle.typed_unit.specs.Views.{unit_of};
ghost use Rattle.oil_rules.specs.Rules.{faults};
ghost use Rattle.oil_text.specs.OilText.{IsOilText};
ghost use Rattle.static_rules.specs.Checked.{Fits};
ghost use Rattle.text_stages.specs.Prepared.{first_input, is_input};
ghost use Rattle.text_stages.specs.Stages.{StopsBy, IsOilRefusal, IsRuleRefusal, IsTokenRefusal, IsGrammarRefusal, BreaksRule, KeepsRules};

use crate::stop::Stop;
use answers::refusal::Refusal;
use app_model::build::{AppFault, app_of};
use application::app::App;
use c_lex::fault::LexFault;
use c_lex::lexing::lex;
use c_lex::token::{Token, TokenKind};
use c_lex::tokens::Tokens;
use c_parse::fault::ParseFault;
use c_parse::parse::parse;
use c_rules::objects::is_input_name;
use c_types::types::{TypeFault, type_unit};
use c_unit::unit::Unit;
use chk_base::place::Place;
use chk_base::text::Text;
use oil_text::fault::OilFault;
use oil_text::reader::read_oil;
use oil_tree::tree::OilTree;
use static_rules::check::{Checked, RuleFault, check_rules};
use std::alloc::Global;
use typed_unit::typed::TypedUnit;

// The tree of the OIL text.
pub(crate) fn tree_of(alloc: Global, oil: &Text) -> Result<OilTree, Stop>
    requires { length oil.now ≤ 262144 }
    ensures tree { IfOk result (IsOilText oil.now) }
    ensures stop { IfErr result (StopsBy (IsOilRefusal oil.now)) }
{
    match read_oil(alloc, oil) {
        Ok(tree) => Ok(tree),
        Err(OilFault::Byte(place)) => Err(Stop::Refused(Refusal::OilByte(place))),
        Err(OilFault::Token(place)) => Err(Stop::Refused(Refusal::OilToken(place))),
        Err(OilFault::EndOfText(place)) => Err(Stop::Refused(Refusal::OilEnd(place))),
        Err(OilFault::Memory) => Err(Stop::Memory),
    }
}

// The application that the tree describes.
pub(crate) fn application_of(
    alloc: Global,
    tree: &OilTree,
    mode: Option<&Text>,
) -> Result<App, Stop>
    ensures app { IfOk result (λ app. app ≡ application tree.now (option_copied mode.entry)) }
    ensures accepted { OnOk result (faults tree.now (option_copied mode.entry) ≡ []) }
    ensures order { IfOk result IsInOrder }
    ensures stop { IfErr result (StopsBy (IsRuleRefusal tree.now (option_copied mode.entry))) }
{
    match app_of(alloc, tree, mode) {
        Ok(app) => Ok(app),
        Err(AppFault::Rule(rule, place)) => Err(Stop::Refused(Refusal::OilRule(rule, place))),
        Err(AppFault::Memory) => Err(Stop::Memory),
    }
}

// The tokens of the C text.
pub(crate) fn tokens_of(alloc: Global, c: &Text) -> Result<Tokens, Stop>
    requires { length c.now ≤ 262144 }
    ensures tokens { IfOk result (IsCTokens c.now) }
    ensures stop { IfErr result (StopsBy (IsTokenRefusal c.now)) }
{
    match lex(alloc, c) {
        Ok(tokens) => Ok(tokens),
        Err(LexFault::Byte(place)) => Err(Stop::Refused(Refusal::CByte(place))),
        Err(LexFault::Directive(place)) => Err(Stop::Refused(Refusal::CDirective(place))),
        Err(LexFault::Number(place)) => Err(Stop::Refused(Refusal::CNumber(place))),
        Err(LexFault::Memory) => Err(Stop::Memory),
    }
}

// Whether a token is the name `oschk_input`.
fn is_input(token: &Token) -> bool
    ensures { result ≡ is_input token.now }
{
    match token.kind {
        TokenKind::Name => is_input_name(token.text.as_bytes()),
        _ => false,
    }
}

// Where the name `oschk_input` stands first, if it stands somewhere.
#[tactic(auto, using(crate::proofs::Tokens::one_token))]
pub(crate) fn first_input(tokens: &Tokens) -> Option<Place>
    ensures { result ≡ first_input tokens.now.items }
{
    for token in tokens.items() {
        if is_input(token) {
            return Some(token.place);
        }
    }
    None
}

// The unit of C that the tokens are.
pub(crate) fn written_of(alloc: Global, tokens: &Tokens) -> Result<Unit, Stop>
    ensures unit { IfOk result (parsed.IsUnitOf tokens.now) }
    ensures stop { IfErr result (StopsBy (IsGrammarRefusal tokens.now)) }
{
    match parse(alloc, tokens) {
        Ok(unit) => Ok(unit),
        Err(ParseFault::Depth(place)) => Err(Stop::Refused(Refusal::CDepth(place))),
        Err(ParseFault::Token(place)) => Err(Stop::Refused(Refusal::CToken(place))),
        Err(ParseFault::EndOfText(place)) => Err(Stop::Refused(Refusal::CEnd(place))),
        Err(ParseFault::Memory) => Err(Stop::Memory),
    }
}

// The typed unit.
fn typed_of(alloc: Global, app: &App, unit: &Unit) -> Result<TypedUnit, Stop>
    ensures typed { IfOk result (λ u. unit_of u ≡ typed unit.now app.now) }
    ensures accepted { OnOk result (c_rules.faults unit.now app.now ≡ []) }
    ensures stop { IfErr result (StopsBy (λ refusal. BreaksRule refusal app.now unit.now)) }
{
    match type_unit(alloc, unit, app) {
        Ok(typed) => Ok(typed),
        Err(TypeFault::Rule(rule, place)) => Err(Stop::Refused(Refusal::CRule(rule, place))),
        Err(TypeFault::Memory) => Err(Stop::Memory),
    }
}

// The typed unit, which breaks no rule.
pub(crate) fn checked_of(alloc: Global, app: &App, unit: &Unit) -> Result<Checked, Stop>
    requires { IsInOrder app.now }
    ensures typed { IfOk result (λ u. unit_of u ≡ typed unit.now app.now) }
    ensures rules { OnOk result (KeepsRules app.now unit.now) }
    ensures fits { IfOk result (Fits app.now) }
    ensures stop { IfErr result (StopsBy (λ refusal. BreaksRule refusal app.now unit.now)) }
{
    let typed = typed_of(alloc, app, unit)?;
    match check_rules(alloc, app, typed) {
        Ok(checked) => Ok(checked),
        Err(RuleFault::Rule(rule, place)) => Err(Stop::Refused(Refusal::StaticRule(rule, place))),
        Err(RuleFault::Memory) => Err(Stop::Memory),
    }
}
