// What is known outside of every body, and what names mean.
ghost use Rattle.std.specs.Prelude.{◌≡◌, OnOk, None, map, slice_get, ◌∷◌, [], ◌++◌};
ghost use Rattle.c_rules.specs.PlainFiles.{plain_files};
ghost use Rattle.std.specs.Option.{option_copied};
ghost use Rattle.c_rules.specs.Files.{known_meaning, meaning, file_named, function_named, with_file_name, variable_name, written_length, variable_meaning, function_meaning, with_variable, with_function, nothing_of};

use crate::meaning::{FunctionMeaning, Meaning, VariableMeaning};
use crate::objects::{left_out_named, object_named, same, system_named};
use crate::scope::Scope;
use application::app::App;
use c_unit::unit::{Declaration, Signature, Variable};
use chk_base::text::Name;
use indexmap::IndexMap;
use std::alloc::{AllocError, Global};
use std::marker::Model;

/// The application, the names of file level with what each was first declared as, and the variables and functions of the text.
#[derive(Drop)]
pub struct Names<'a> {
    app: &'a App,
    files: IndexMap<&'a [u8], Meaning>,
    variables: Vec<&'a Declaration>,
    functions: Vec<&'a Signature>,
}

impl<'a> Model for Names<'a> {
    ghost use Rattle.std.specs.Prelude.{map};
    ghost use Rattle.c_rules.specs.Files.{Known};
    ghost use Rattle.c_rules.specs.PlainFiles.{plain_files};

    ghost Value = { Known };

    ghost view = { λ n. record { app = n.app.now; files = plain_files n.files.entries; variables = map (λ d. d.now) n.variables.items; functions = map (λ f. f.now) n.functions.items } };
}

/// The name of a file-level variable. It takes no memory.
pub fn variable_name(variable: &Variable) -> &Name
    ensures { result.now ≡ variable_name variable.now }
{
    match variable {
        Variable::Scalar(name, _) => name,
        Variable::Array(name, _, _) => name,
    }
}

// The length that is written for an array.
fn written_length(variable: &Variable) -> Option<u32>
    ensures { result ≡ written_length variable.now }
{
    match variable {
        Variable::Scalar(_, _) => None,
        Variable::Array(_, len, _) => Some(len.bits),
    }
}

fn variable_meaning(number: usize, d: &Declaration) -> Meaning
    ensures { result ≡ variable_meaning number d.now }
{
    Meaning::Variable(VariableMeaning {
        number,
        type_name: d.type_name,
        constant: d.constant,
        len: written_length(&d.variable),
    })
}

fn function_meaning(number: usize, f: &Signature) -> Meaning
    ensures { result ≡ function_meaning number f.now }
{
    Meaning::Function(FunctionMeaning {
        number,
        result: f.result,
        parameters: f.parameters.len(),
    })
}

// The first function of this name.
#[tactic(auto, using(crate::proofs::FileNames::one_function))]
fn function_among<'b>(functions: &'b [&Signature], name: &[u8]) -> Option<&'b Signature>
    ensures { option_copied result ≡ function_named (map (λ f. f.now) functions.now) name.now }
{
    for f in functions {
        if same(name, f.name.text.as_bytes()) {
            return Some(*f);
        }
    }
    None
}

// Puts a name that is new behind the others.
#[tactic(auto, using(crate::proofs::FileNames::one_more))]
fn put<'a>(
    files: &mut IndexMap<&'a [u8], Meaning>,
    name: &'a [u8],
    meaning: Meaning,
) -> Result<(), AllocError>
    requires { file_named (plain_files files.old.entries) name.now ≡ None }
    ensures { OnOk result (plain_files files.new.entries ≡ plain_files files.old.entries ++ (name.now, meaning) ∷ []) }
{
    match files.insert(name, meaning) {
        Ok(_) => Ok(()),
        Err(_) => Err(AllocError),
    }
}

impl<'a> Names<'a> {
    // Nothing but the application.
    pub(crate) fn new(alloc: Global, app: &'a App) -> Names<'a>
        ensures { result ≡ nothing_of app.now }
    {
        Names {
            app,
            files: IndexMap::new(alloc),
            variables: Vec::new(alloc),
            functions: Vec::new(alloc),
        }
    }

    /// The application. It takes no memory.
    pub fn app(&self) -> &App
        ensures { result.now ≡ self.now.app }
    {
        self.app
    }

    /// The function with this number. It takes no memory.
    pub fn function(&self, number: usize) -> Option<&Signature>
        ensures { option_copied result ≡ slice_get self.now.functions number }
    {
        match self.functions.get(number) {
            None => None,
            Some(function) => Some(*function),
        }
    }

    /// The first function of this name. It takes no memory.
    pub fn function_named(&self, name: &[u8]) -> Option<&Signature>
        ensures { option_copied result ≡ function_named self.now.functions name.now }
    {
        function_among(&self.functions, name)
    }

    /// What a name means at file level. It takes no memory.
    #[tactic(auto, using(crate::proofs::FileNames::found))]
    pub fn file(&self, name: &[u8]) -> Option<Meaning>
        ensures { result ≡ file_named self.now.files name.now }
    {
        self.files.get(name).copied()
    }

    // Declares a name, which counts only where it is new.
    fn declare(&mut self, name: &'a [u8], meaning: Meaning) -> Result<(), AllocError>
        ensures { OnOk result (self.new ≡ record self.old { files = with_file_name self.old.files name.now meaning }) }
    {
        match self.file(name) {
            Some(_) => Ok(()),
            None => put(&mut self.files, name, meaning),
        }
    }

    // Declares a variable.
    pub(crate) fn declare_variable(&mut self, d: &'a Declaration) -> Result<(), AllocError>
        ensures { OnOk result (self.new ≡ with_variable self.old d.now) }
    {
        let number = self.variables.len();
        self.declare(
            variable_name(&d.variable).text.as_bytes(),
            variable_meaning(number, d),
        )?;
        self.variables.push(d)?;
        Ok(())
    }

    // Declares a function.
    pub(crate) fn declare_function(&mut self, f: &'a Signature) -> Result<(), AllocError>
        ensures { OnOk result (self.new ≡ with_function self.old f.now) }
    {
        let number = self.functions.len();
        self.declare(f.name.text.as_bytes(), function_meaning(number, f))?;
        self.functions.push(f)?;
        Ok(())
    }

    /// What a name means outside of every body. It takes no memory.
    #[tactic(auto, unfolding(crate::specs::Files::known_meaning))]
    pub fn known_meaning(&self, name: &[u8]) -> Meaning
        ensures { result ≡ known_meaning self.now name.now }
    {
        if let Some(meaning) = object_named(self.app, name) {
            return meaning;
        }
        if let Some(meaning) = system_named(name) {
            return meaning;
        }
        if let Some(meaning) = self.file(name) {
            return meaning;
        }
        match left_out_named(name) {
            Some(meaning) => meaning,
            None => Meaning::Nothing,
        }
    }

    /// What a name means in a scope. It takes no memory.
    #[tactic(auto, unfolding(crate::specs::Files::meaning))]
    pub fn meaning(&self, scope: &Scope<'_>, name: &[u8]) -> Meaning
        ensures { result ≡ meaning self.now scope.now.visible name.now }
    {
        match scope.local(name) {
            Some(local) => Meaning::Local(local),
            None => self.known_meaning(name),
        }
    }
}
