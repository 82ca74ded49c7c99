// Readers of what stands at file level.
ghost use Rattle.std.specs.Prelude.{◌≡◌, ◌<◌, ◌≤◌, [], ◌∷◌, ◌++◌, cond, length, map, true, false, IfOk, IfSome, IfNone};
ghost use Rattle.grammar.specs.Grammar.{Left, Many, Right, Rule, has, items, optional, ◌∣◌, ◌▸◌};
ghost use Rattle.grammar.specs.Reading.{Got, begins};
ghost use Rattle.c_grammar.specs.declared.symbol.Symbol.TheVariants.{Assign, Comma, Const, False, Minus, Semicolon, True};
ghost use Rattle.c_grammar.specs.Symbols.{number_class};
ghost use Rattle.c_grammar.specs.Factored.{TheBlock, TheBounds, TheExternal, TheFunction, TheTail, TheVariable, TheVariables, factored_constants, factored_parameters, factored_unit, initial, typed_rest, void_rest};
ghost use Rattle.c_grammar.specs.Next.{classes, part_firsts};
ghost use Rattle.c_grammar.specs.Trees.{written_constants, written_else, written_parameters};
ghost use Rattle.c_grammar.specs.Written.{constant, declaring, entity, number, one_of, parameter, qualifier_words, qualifiers, spelled};
ghost use Rattle.c_expression.specs.Lexemes.{has_const, is_const, is_spelled, spelled_at};
ghost use Rattle.c_expression.specs.Reads.{Gives, class_at, reads, tree_at, written_at};
ghost use Rattle.c_parse.specs.Units.{after_name, array_of, constant_of, constants_of, declaring_of, defined_of, ended, entity_of, external_of, externals_of, function_of, further_parameter, further_variable, initial_of, more_of, parameter_of, parameters_of, sign_at, signed_by, typed_of, variable_of, void_of};
ghost use Rattle.c_unit.specs.declared.unit.External.TheVariants as externals;

use crate::simples::{begins_local, either, local_qualifiers, which};
use crate::statements::block;
use c_expression::lexeme::{
    begins, begins_among, begins_number, begins_type, is, name, number, symbol, type_name,
};
use c_expression::stop::Stop;
use c_grammar::symbol::Symbol;
use c_lex::token::Token;
use c_unit::expression::{Number, TypeName};
use c_unit::unit::{
    Constant, Constants, Declaration, Declarations, EntityKind, External, Externals, Function,
    Parameter, Parameters, Signature, Variable,
};
use chk_base::place::Place;
use chk_base::text::Name;
use sqlite_items::Items;
use std::alloc::Global;

/// One of two words: whether it is the first of them.
#[tactic(auto, unfolding(c_expression::specs::Reads::tree_at))]
fn one_of_two(tokens: &[Token], first: Symbol, second: Symbol) -> Result<(bool, &[Token]), Stop>
    ensures gives { Gives (λ x. x.1.now) result (one_of (first ∷ second ∷ [])) tokens.now }
    ensures means { IfOk result (λ x. spelled_at first (written_at (one_of (first ∷ second ∷ [])) tokens.now) ≡ x.0) }
    ensures shorter { IfOk result (λ x. length x.1.now < length tokens.now) }
{
    match tokens {
        [token, rest @ ..] => match which(token, first, second) {
            Some(is_first) => Ok((is_first, rest)),
            None => Err(Stop::At(tokens)),
        },
        [] => Err(Stop::At(tokens)),
    }
}

/// Does a number with a sign or without come next?
fn begins_signed(tokens: &[Token]) -> bool
    ensures { result ≡ begins class_at (classes (Minus ∷ []) ++ number_class ∷ []) tokens.now }
{
    begins(tokens, Symbol::Minus) || begins_number(tokens)
}

/// A minus sign, if one comes next: its place.
#[tactic(auto, using(c_expression::proofs::Opened::tree_at_is))]
fn sign(tokens: &[Token]) -> Result<(Option<Place>, &[Token]), Stop>
    ensures gives { Gives (λ x. x.1.now) result (optional (spelled Minus)) tokens.now }
    ensures means { IfOk result (λ x. sign_at (written_at (optional (spelled Minus)) tokens.now) ≡ x.0) }
    ensures not_longer { IfOk result (λ x. length x.1.now ≤ length tokens.now) }
{
    if !begins(tokens, Symbol::Minus) {
        return Ok((None, tokens));
    }
    let (place, rest) = symbol(tokens, Symbol::Minus)?;
    Ok((Some(place), rest))
}

/// The constant that a number is, with a minus sign at the place or without.
fn signed_by(sign: Option<Place>, number: Number) -> Constant
    ensures { result ≡ signed_by sign number }
{
    match sign {
        Some(place) => Constant::Number {
            place,
            negative: true,
            number,
        },
        None => Constant::Number {
            place: number.place,
            negative: false,
            number,
        },
    }
}

/// A number with a sign or without.
#[tactic(auto, using(c_expression::proofs::Opened::tree_at_is))]
fn signed(tokens: &[Token]) -> Result<(Constant, &[Token]), Stop>
    ensures gives { Gives (λ x. x.1.now) result (optional (spelled Minus) ▸ number) tokens.now }
    ensures means { IfOk result (λ x. constant_of (Left (written_at (optional (spelled Minus) ▸ number) tokens.now)) ≡ x.0) }
    ensures shorter { IfOk result (λ x. length x.1.now < length tokens.now) }
{
    let (sign, rest) = sign(tokens)?;
    let (number, rest) = number(rest)?;
    Ok((signed_by(sign, number), rest))
}

/// `true` or `false`.
#[tactic(auto, using(c_expression::proofs::Opened::tree_at_is))]
fn truth(tokens: &[Token]) -> Result<(Constant, &[Token]), Stop>
    ensures gives { Gives (λ x. x.1.now) result (spelled True ∣ spelled False) tokens.now }
    ensures means { IfOk result (λ x. constant_of (Right (written_at (spelled True ∣ spelled False) tokens.now)) ≡ x.0) }
    ensures shorter { IfOk result (λ x. length x.1.now < length tokens.now) }
{
    if begins(tokens, Symbol::True) {
        let (place, rest) = symbol(tokens, Symbol::True)?;
        return Ok((Constant::Truth(place, true), rest));
    }
    let (place, rest) = symbol(tokens, Symbol::False)?;
    Ok((Constant::Truth(place, false), rest))
}

/// A constant.
#[tactic(auto, using(c_expression::proofs::Opened::tree_at_is))]
fn constant(tokens: &[Token]) -> Result<(Constant, &[Token]), Stop>
    ensures gives { Gives (λ x. x.1.now) result constant tokens.now }
    ensures means { IfOk result (λ x. constant_of (written_at constant tokens.now) ≡ x.0) }
    ensures shorter { IfOk result (λ x. length x.1.now < length tokens.now) }
{
    if begins_signed(tokens) {
        let (constant, rest) = signed(tokens)?;
        return Ok((constant, rest));
    }
    let (constant, rest) = truth(tokens)?;
    Ok((constant, rest))
}

/// Does a constant come next?
fn begins_constant(tokens: &[Token]) -> bool
    ensures { result ≡ begins class_at (classes (Minus ∷ []) ++ number_class ∷ classes (True ∷ False ∷ [])) tokens.now }
{
    begins(tokens, Symbol::Minus)
        || begins_number(tokens)
        || begins_among(tokens, &[Symbol::True, Symbol::False])
}

/// Further constants, put after those that there are, and perhaps a comma after the last one.
fn tail(constants: Constants, tokens: &[Token]) -> Result<(Constants, &[Token]), Stop>
    ensures gives { Gives (λ x. x.1.now) result (optional (Rule TheTail)) tokens.now }
    ensures means { IfOk result (λ x. x.0 ≡ constants ++ more_of (written_else (written_at (optional (Rule TheTail)) tokens.now))) }
    ensures not_longer { IfOk result (λ x. length x.1.now ≤ length tokens.now) }
{
    let mut constants = constants;
    let mut rest = tokens;
    'items: while begins(rest, Symbol::Comma) {
        let (_, after) = symbol(rest, Symbol::Comma)?;
        if !begins_constant(after) {
            return Ok((constants, after));
        }
        let (constant, after) = constant(after)?;
        constants.push(constant)?;
        rest = after;
    }
    Ok((constants, rest))
}

/// The constants of an array, if there are any.
#[tactic(auto, using(c_expression::proofs::Opened::tree_at_is, crate::proofs::Meant::tail_meant))]
fn constants(alloc: Global, tokens: &[Token]) -> Result<(Constants, &[Token]), Stop>
    ensures gives { Gives (λ x. x.1.now) result (optional factored_constants) tokens.now }
    ensures means { IfOk result (λ x. constants_of (written_constants (written_at (optional factored_constants) tokens.now)) ≡ x.0) }
    ensures not_longer { IfOk result (λ x. length x.1.now ≤ length tokens.now) }
{
    let mut constants = Items::new(alloc);
    if !begins(tokens, Symbol::Assign) {
        return Ok((constants, tokens));
    }
    let (_, rest) = symbol(tokens, Symbol::Assign)?;
    let (_, rest) = symbol(rest, Symbol::LeftBrace)?;
    let (first, rest) = constant(rest)?;
    constants.push(first)?;
    let (constants, rest) = tail(constants, rest)?;
    let (_, rest) = symbol(rest, Symbol::RightBrace)?;
    Ok((constants, rest))
}

/// What follows the name of an array.
#[tactic(auto, using(crate::proofs::Opened::bounds_opened, c_expression::proofs::Opened::tree_at_is))]
fn bounds(alloc: Global, name: Name, tokens: &[Token]) -> Result<(Variable, &[Token]), Stop>
    ensures gives { Gives (λ x. x.1.now) result (Rule TheBounds) tokens.now }
    ensures means { IfOk result (λ x. array_of name (written_at (Rule TheBounds) tokens.now) ≡ x.0) }
    ensures shorter { IfOk result (λ x. length x.1.now < length tokens.now) }
{
    let (_, rest) = symbol(tokens, Symbol::LeftBracket)?;
    let (length, rest) = number(rest)?;
    let (_, rest) = symbol(rest, Symbol::RightBracket)?;
    let (constants, rest) = constants(alloc, rest)?;
    Ok((Variable::Array(name, length, constants), rest))
}

/// What follows the name of a variable.
#[tactic(auto, using(c_expression::proofs::Opened::tree_at_is))]
fn initial(alloc: Global, name: Name, tokens: &[Token]) -> Result<(Variable, &[Token]), Stop>
    ensures gives { Gives (λ x. x.1.now) result initial tokens.now }
    ensures means { IfOk result (λ x. initial_of name (written_at initial tokens.now) ≡ x.0) }
    ensures not_longer { IfOk result (λ x. length x.1.now ≤ length tokens.now) }
{
    if begins(tokens, Symbol::Assign) {
        let (_, rest) = symbol(tokens, Symbol::Assign)?;
        let (constant, rest) = constant(rest)?;
        return Ok((Variable::Scalar(name, Some(constant)), rest));
    }
    if begins(tokens, Symbol::LeftBracket) {
        return bounds(alloc, name, tokens);
    }
    Ok((Variable::Scalar(name, None), tokens))
}

/// A variable.
#[tactic(auto, using(crate::proofs::Opened::variable_opened, c_expression::proofs::Opened::tree_at_is, crate::proofs::Meant::variable_meant))]
fn variable(alloc: Global, tokens: &[Token]) -> Result<(Variable, &[Token]), Stop>
    ensures gives { Gives (λ x. x.1.now) result (Rule TheVariable) tokens.now }
    ensures means { IfOk result (λ x. variable_of (written_at (Rule TheVariable) tokens.now) ≡ x.0) }
    ensures shorter { IfOk result (λ x. length x.1.now < length tokens.now) }
{
    let (name, rest) = name(alloc, tokens)?;
    let (variable, rest) = initial(alloc, name, rest)?;
    Ok((variable, rest))
}

/// A variable after a comma.
#[tactic(auto, using(c_expression::proofs::Opened::tree_at_is))]
fn further_variable(
    alloc: Global,
    constant: bool,
    type_name: TypeName,
    tokens: &[Token],
) -> Result<(Declaration, &[Token]), Stop>
    ensures gives { Gives (λ x. x.1.now) result (spelled Comma ▸ Rule TheVariable) tokens.now }
    ensures means { IfOk result (λ x. further_variable constant type_name (written_at (spelled Comma ▸ Rule TheVariable) tokens.now) ≡ x.0) }
    ensures shorter { IfOk result (λ x. length x.1.now < length tokens.now) }
{
    let (_, rest) = symbol(tokens, Symbol::Comma)?;
    let (variable, rest) = variable(alloc, rest)?;
    Ok((
        Declaration {
            type_name,
            constant,
            variable,
        },
        rest,
    ))
}

/// Further variables, put after those that there are.
fn further_variables(
    declarations: Declarations,
    alloc: Global,
    constant: bool,
    type_name: TypeName,
    tokens: &[Token],
) -> Result<(Declarations, &[Token]), Stop>
    ensures gives { Gives (λ x. x.1.now) result (Many (spelled Comma ▸ Rule TheVariable)) tokens.now }
    ensures means { IfOk result (λ x. x.0 ≡ declarations ++ map (further_variable constant type_name) (items (written_at (Many (spelled Comma ▸ Rule TheVariable)) tokens.now))) }
    ensures not_longer { IfOk result (λ x. length x.1.now ≤ length tokens.now) }
{
    let mut declarations = declarations;
    let mut rest = tokens;
    'items: while begins(rest, Symbol::Comma) {
        let (declaration, after) = further_variable(alloc, constant, type_name, rest)?;
        declarations.push(declaration)?;
        rest = after;
    }
    Ok((declarations, rest))
}

/// What follows the name of the first of some variables.
#[tactic(auto, using(crate::proofs::Opened::variables_opened, c_expression::proofs::Opened::tree_at_is))]
fn variables(
    alloc: Global,
    constant: bool,
    type_name: TypeName,
    name: Name,
    tokens: &[Token],
) -> Result<(Declarations, &[Token]), Stop>
    ensures gives { Gives (λ x. x.1.now) result (Rule TheVariables) tokens.now }
    ensures means { IfOk result (λ x. after_name constant type_name name (written_at (Rule TheVariables) tokens.now) ≡ x.0) }
    ensures shorter { IfOk result (λ x. length x.1.now < length tokens.now) }
{
    let (variable, rest) = initial(alloc, name, tokens)?;
    let mut declarations = Items::new(alloc);
    declarations.push(Declaration {
        type_name,
        constant,
        variable,
    })?;
    let (declarations, rest) = further_variables(declarations, alloc, constant, type_name, rest)?;
    let (_, rest) = symbol(rest, Symbol::Semicolon)?;
    Ok((declarations, rest))
}

/// A parameter.
#[tactic(auto, using(c_expression::proofs::Opened::tree_at_is))]
fn parameter(alloc: Global, tokens: &[Token]) -> Result<(Parameter, &[Token]), Stop>
    ensures gives { Gives (λ x. x.1.now) result parameter tokens.now }
    ensures means { IfOk result (λ x. parameter_of (written_at parameter tokens.now) ≡ x.0) }
    ensures shorter { IfOk result (λ x. length x.1.now < length tokens.now) }
{
    let (constant, rest) = local_qualifiers(tokens);
    let (type_name, rest) = type_name(rest)?;
    let (name, rest) = name(alloc, rest)?;
    Ok((
        Parameter {
            type_name,
            constant,
            name,
        },
        rest,
    ))
}

/// A parameter after a comma.
#[tactic(auto, using(c_expression::proofs::Opened::tree_at_is))]
fn further_parameter(alloc: Global, tokens: &[Token]) -> Result<(Parameter, &[Token]), Stop>
    ensures gives { Gives (λ x. x.1.now) result (spelled Comma ▸ parameter) tokens.now }
    ensures means { IfOk result (λ x. further_parameter (written_at (spelled Comma ▸ parameter) tokens.now) ≡ x.0) }
    ensures shorter { IfOk result (λ x. length x.1.now < length tokens.now) }
{
    let (_, rest) = symbol(tokens, Symbol::Comma)?;
    let (parameter, rest) = parameter(alloc, rest)?;
    Ok((parameter, rest))
}

/// Further parameters, put after those that there are.
fn further_parameters(
    parameters: Parameters,
    alloc: Global,
    tokens: &[Token],
) -> Result<(Parameters, &[Token]), Stop>
    ensures gives { Gives (λ x. x.1.now) result (Many (spelled Comma ▸ parameter)) tokens.now }
    ensures means { IfOk result (λ x. x.0 ≡ parameters ++ map further_parameter (items (written_at (Many (spelled Comma ▸ parameter)) tokens.now))) }
    ensures not_longer { IfOk result (λ x. length x.1.now ≤ length tokens.now) }
{
    let mut parameters = parameters;
    let mut rest = tokens;
    'items: while begins(rest, Symbol::Comma) {
        let (parameter, after) = further_parameter(alloc, rest)?;
        parameters.push(parameter)?;
        rest = after;
    }
    Ok((parameters, rest))
}

/// The parameters of a function: none, also where `void` stands.
#[tactic(auto, using(c_expression::proofs::Opened::tree_at_is))]
fn parameters(alloc: Global, tokens: &[Token]) -> Result<(Parameters, &[Token]), Stop>
    ensures gives { Gives (λ x. x.1.now) result factored_parameters tokens.now }
    ensures means { IfOk result (λ x. parameters_of (written_parameters (written_at factored_parameters tokens.now)) ≡ x.0) }
    ensures not_longer { IfOk result (λ x. length x.1.now ≤ length tokens.now) }
{
    let mut parameters = Items::new(alloc);
    if begins(tokens, Symbol::Void) {
        let (_, rest) = symbol(tokens, Symbol::Void)?;
        return Ok((parameters, rest));
    }
    if !begins_local(tokens) {
        return Ok((parameters, tokens));
    }
    let (first, rest) = parameter(alloc, tokens)?;
    parameters.push(first)?;
    further_parameters(parameters, alloc, rest)
}

/// A block or `;` after a signature.
#[tactic(auto, using(c_expression::proofs::Opened::tree_at_is))]
fn ended(
    alloc: Global,
    signature: Signature,
    tokens: &[Token],
) -> Result<(External, &[Token]), Stop>
    ensures gives { Gives (λ x. x.1.now) result (Rule TheBlock ∣ spelled Semicolon) tokens.now }
    ensures means { IfOk result (λ x. ended signature (written_at (Rule TheBlock ∣ spelled Semicolon) tokens.now) ≡ x.0) }
    ensures shorter { IfOk result (λ x. length x.1.now < length tokens.now) }
{
    if begins(tokens, Symbol::LeftBrace) {
        let (body, close, rest) = block(alloc, tokens)?;
        return Ok((
            External::Function(Function {
                signature,
                body,
                close,
            }),
            rest,
        ));
    }
    let (_, rest) = symbol(tokens, Symbol::Semicolon)?;
    Ok((External::Prototype(signature), rest))
}

/// What follows a function's name.
#[tactic(auto, using(crate::proofs::Opened::function_opened, c_expression::proofs::Opened::tree_at_is))]
fn function(
    alloc: Global,
    returned: Option<TypeName>,
    name: Name,
    tokens: &[Token],
) -> Result<(External, &[Token]), Stop>
    ensures gives { Gives (λ x. x.1.now) result (Rule TheFunction) tokens.now }
    ensures means { IfOk result (λ x. function_of returned name (written_at (Rule TheFunction) tokens.now) ≡ x.0) }
    ensures shorter { IfOk result (λ x. length x.1.now < length tokens.now) }
{
    let (_, rest) = symbol(tokens, Symbol::LeftParenthesis)?;
    let (parameters, rest) = parameters(alloc, rest)?;
    let (_, rest) = symbol(rest, Symbol::RightParenthesis)?;
    let signature = Signature {
        result: returned,
        name,
        parameters,
    };
    ended(alloc, signature, rest)
}

/// Whether the qualifier is `const`, where the token is one.
#[tactic(auto, using(c_expression::proofs::Opened::or_false))]
fn qualifier_word(token: &Token) -> Option<bool>
    ensures some { IfSome result (λ x. is_spelled Const token.now ≡ x) }
    ensures found { IfSome result (λ _. has (classes qualifier_words) (class_at token.now) ≡ true) }
    ensures none { IfNone result (has (classes qualifier_words) (class_at token.now) ≡ false) }
{
    if is(token, Symbol::Const) {
        Some(true)
    } else if is(token, Symbol::Static) {
        Some(false)
    } else if is(token, Symbol::Volatile) {
        Some(false)
    } else {
        None
    }
}

/// A qualifier at file level, if one comes next: whether it is `const`.
#[tactic(auto, unfolding(c_expression::specs::Reads::tree_at))]
fn qualifier(tokens: &[Token]) -> Option<(bool, &[Token])>
    ensures gives { IfSome result (λ x. reads (one_of qualifier_words) tokens.now ≡ Got (tree_at (one_of qualifier_words) tokens.now) x.1.now) }
    ensures means { IfSome result (λ x. is_const (written_at (one_of qualifier_words) tokens.now) ≡ x.0) }
    ensures begins { IfSome result (λ x. begins class_at (classes qualifier_words) tokens.now ≡ true) }
    ensures none { IfNone result (begins class_at (classes qualifier_words) tokens.now ≡ false) }
    ensures shorter { IfSome result (λ x. length x.1.now < length tokens.now) }
{
    match tokens {
        [first, rest @ ..] => match qualifier_word(first) {
            Some(is_const) => Some((is_const, rest)),
            None => None,
        },
        [] => None,
    }
}

/// The qualifiers at file level: whether `const` is among them.
fn qualifiers(tokens: &[Token]) -> (bool, &[Token])
    ensures gives { reads qualifiers tokens.now ≡ Got (tree_at qualifiers tokens.now) result.1.now }
    ensures means { has_const (written_at qualifiers tokens.now) ≡ result.0 }
    ensures not_longer { length result.1.now ≤ length tokens.now }
{
    let mut constant = false;
    let mut rest = tokens;
    'items: while let Some((is_const, after)) = qualifier(rest) {
        constant = either(constant, is_const);
        rest = after;
    }
    (constant, rest)
}

/// What follows the qualifiers of a function without a result.
#[tactic(auto, using(c_expression::proofs::Opened::tree_at_is))]
fn void_function(alloc: Global, tokens: &[Token]) -> Result<(External, &[Token]), Stop>
    ensures gives { Gives (λ x. x.1.now) result void_rest tokens.now }
    ensures means { IfOk result (λ x. void_of (written_at void_rest tokens.now) ≡ x.0) }
    ensures shorter { IfOk result (λ x. length x.1.now < length tokens.now) }
{
    let (_, rest) = symbol(tokens, Symbol::Void)?;
    let (name, rest) = name(alloc, rest)?;
    function(alloc, None, name, rest)
}

/// What follows the qualifiers of variables, or of a function with a result.
#[tactic(auto, using(c_expression::proofs::Opened::tree_at_is))]
fn typed(alloc: Global, constant: bool, tokens: &[Token]) -> Result<(External, &[Token]), Stop>
    ensures gives { Gives (λ x. x.1.now) result typed_rest tokens.now }
    ensures means { IfOk result (λ x. typed_of constant (written_at typed_rest tokens.now) ≡ x.0) }
    ensures shorter { IfOk result (λ x. length x.1.now < length tokens.now) }
{
    let (type_name, rest) = type_name(tokens)?;
    let (name, rest) = name(alloc, rest)?;
    if begins(rest, Symbol::LeftParenthesis) {
        return function(alloc, Some(type_name), name, rest);
    }
    let (declarations, rest) = variables(alloc, constant, type_name, name, rest)?;
    Ok((External::Variables(declarations), rest))
}

/// A function or variables, after their qualifiers.
#[tactic(auto, using(c_expression::proofs::Opened::tree_at_is))]
fn defined(alloc: Global, constant: bool, tokens: &[Token]) -> Result<(External, &[Token]), Stop>
    ensures gives { Gives (λ x. x.1.now) result (void_rest ∣ typed_rest) tokens.now }
    ensures means { IfOk result (λ x. defined_of constant (written_at (void_rest ∣ typed_rest) tokens.now) ≡ x.0) }
    ensures shorter { IfOk result (λ x. length x.1.now < length tokens.now) }
{
    if begins(tokens, Symbol::Void) {
        return void_function(alloc, tokens);
    }
    typed(alloc, constant, tokens)
}

/// A declared task or resource.
fn declared(is_task: bool, name: Name) -> External
    ensures { result ≡ cond is_task (externals.DeclareTask name) (externals.DeclareResource name) }
{
    if is_task {
        External::DeclareTask(name)
    } else {
        External::DeclareResource(name)
    }
}

/// `DeclareTask` or `DeclareResource` with its name.
#[tactic(auto, using(c_expression::proofs::Opened::tree_at_is))]
fn declaring(alloc: Global, tokens: &[Token]) -> Result<(External, &[Token]), Stop>
    ensures gives { Gives (λ x. x.1.now) result declaring tokens.now }
    ensures means { IfOk result (λ x. declaring_of (written_at declaring tokens.now) ≡ x.0) }
    ensures shorter { IfOk result (λ x. length x.1.now < length tokens.now) }
{
    let (is_task, rest) = one_of_two(tokens, Symbol::DeclareTask, Symbol::DeclareResource)?;
    let (_, rest) = symbol(rest, Symbol::LeftParenthesis)?;
    let (name, rest) = name(alloc, rest)?;
    let (_, rest) = symbol(rest, Symbol::RightParenthesis)?;
    let (_, rest) = symbol(rest, Symbol::Semicolon)?;
    Ok((declared(is_task, name), rest))
}

/// The body of a task or an interrupt routine.
#[tactic(auto, using(c_expression::proofs::Opened::tree_at_is))]
fn entity(alloc: Global, tokens: &[Token]) -> Result<(External, &[Token]), Stop>
    ensures gives { Gives (λ x. x.1.now) result (entity TheBlock) tokens.now }
    ensures means { IfOk result (λ x. entity_of (written_at (entity TheBlock) tokens.now) ≡ x.0) }
    ensures shorter { IfOk result (λ x. length x.1.now < length tokens.now) }
{
    let (is_task, rest) = one_of_two(tokens, Symbol::Task, Symbol::Isr)?;
    let kind = if is_task {
        EntityKind::Task
    } else {
        EntityKind::Isr
    };
    let (_, rest) = symbol(rest, Symbol::LeftParenthesis)?;
    let (name, rest) = name(alloc, rest)?;
    let (_, rest) = symbol(rest, Symbol::RightParenthesis)?;
    let (body, close, rest) = block(alloc, rest)?;
    Ok((
        External::Entity {
            kind,
            name,
            body,
            close,
        },
        rest,
    ))
}

/// What stands at file level, one item.
#[tactic(auto, using(crate::proofs::Opened::external_opened, c_expression::proofs::Opened::tree_at_is, crate::proofs::Meant::defined_meant))]
fn external(alloc: Global, tokens: &[Token]) -> Result<(External, &[Token]), Stop>
    ensures gives { Gives (λ x. x.1.now) result (Rule TheExternal) tokens.now }
    ensures means { IfOk result (λ x. external_of (written_at (Rule TheExternal) tokens.now) ≡ x.0) }
    ensures shorter { IfOk result (λ x. length x.1.now < length tokens.now) }
{
    if begins_among(tokens, &[Symbol::DeclareTask, Symbol::DeclareResource]) {
        return declaring(alloc, tokens);
    }
    if begins_among(tokens, &[Symbol::Task, Symbol::Isr]) {
        return entity(alloc, tokens);
    }
    let (constant, rest) = qualifiers(tokens);
    defined(alloc, constant, rest)
}

/// Does an external come next?
fn begins_external(tokens: &[Token]) -> bool
    ensures { result ≡ begins class_at (part_firsts TheExternal) tokens.now }
{
    begins_among(
        tokens,
        &[
            Symbol::DeclareTask,
            Symbol::DeclareResource,
            Symbol::Task,
            Symbol::Isr,
            Symbol::Static,
            Symbol::Const,
            Symbol::Volatile,
            Symbol::Void,
        ],
    ) || begins_type(tokens)
}

/// All that stands at file level, in order.
pub(crate) fn externals(alloc: Global, tokens: &[Token]) -> Result<(Externals, &[Token]), Stop>
    ensures gives { Gives (λ x. x.1.now) result factored_unit tokens.now }
    ensures means { IfOk result (λ x. externals_of (written_at factored_unit tokens.now) ≡ x.0) }
{
    let mut externals = Items::new(alloc);
    let mut rest = tokens;
    'items: while begins_external(rest) {
        let (external, after) = external(alloc, rest)?;
        externals.push(external)?;
        rest = after;
    }
    Ok((externals, rest))
}
