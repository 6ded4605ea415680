//! Printing statements and programs.

ghost use Rattle.std.specs.Prelude.{◌≡◌, [], ◌∷◌, ◌++◌, codes, OnOk, IfOk};
ghost use Rattle.jade_base.specs.declared.place.Pos.{Pos};
ghost use Rattle.jade_syntax.specs.declared.tree.Statement.TheVariants.{Local, Assign, Store, With, Declare};
ghost use Rattle.jade_layout.specs.Layout.{layout};
ghost use Rattle.jade_layout.specs.Spelling.{expr_tokens, statement_tokens, block_tokens, object_tokens, item_tokens, spelling, name_tokens, declare_word};
ghost use Rattle.jade_layout.specs.Spelling.{kind_word};
ghost use Rattle.jade_layout.specs.Printed.{Adds};

use crate::expressions::{put_cell, put_expr, put_member, put_name, put_number};
use crate::printer::Printer;
use jade_base::Memory;
use jade_syntax::Name;
use jade_syntax::tree::{
    Block, CellRef, DeclareWord, Expr, Item, NameList, ObjectRef, Program, Statement, ValueKind,
};
use std::alloc::Global;

fn put_kind(printer: &mut Printer, kind: ValueKind) -> Result<(), Memory>
    ensures { OnOk result (Adds printer.old printer.new (kind_word kind ∷ [])) }
{
    match kind {
        ValueKind::Int => printer.put(b"int"),
        ValueKind::Bool => printer.put(b"bool"),
    }
}

fn word_text(word: &DeclareWord) -> &'static [u8]
    ensures { result.now ≡ declare_word word.now }
{
    match word {
        DeclareWord::Rd => b"rd",
        DeclareWord::Wr => b"wr",
        DeclareWord::RdWr => b"rd_wr",
        DeclareWord::DfRd => b"df_rd",
        DeclareWord::DfWr => b"df_wr",
        DeclareWord::DfRdWr => b"df_rd_wr",
        DeclareWord::Cm => b"cm",
        DeclareWord::NoRd => b"no_rd",
        DeclareWord::NoWr => b"no_wr",
        DeclareWord::NoRdWr => b"no_rd_wr",
    }
}

fn put_word(printer: &mut Printer, word: &DeclareWord) -> Result<(), Memory>
    ensures { OnOk result (Adds printer.old printer.new (declare_word word.now ∷ [])) }
{
    printer.put(word_text(word))
}

#[tactic(auto, using(crate::proofs::Adding::after))]
fn put_object(printer: &mut Printer, object: &ObjectRef) -> Result<(), Memory>
    ensures { OnOk result (Adds printer.old printer.new (object_tokens object.now)) }
{
    put_name(printer, &object.name)?;
    put_member(printer, &object.member)
}

fn put_names(printer: &mut Printer, names: &NameList) -> Result<(), Memory>
    ensures { OnOk result (Adds printer.old printer.new (name_tokens names.now)) }
{
    if names.len() > 0 {
        put_name(printer, &names.at(0).name)?;
        for i in 1..names.len() {
            printer.put(b",")?;
            put_name(printer, &names.at(i).name)?;
        }
    }
    Ok(())
}

fn put_local(
    printer: &mut Printer,
    kind: ValueKind,
    name: &Name,
    value: &Expr,
) -> Result<(), Memory>
    ensures { (at : Pos) → OnOk result (Adds printer.old printer.new (statement_tokens (Local kind name.now at value.now))) }
{
    put_kind(printer, kind)?;
    put_name(printer, name)?;
    put_value(printer, value)
}

/// Puts what is stored or assigned, and the end of the statement.
fn put_value(printer: &mut Printer, value: &Expr) -> Result<(), Memory>
    ensures { OnOk result (Adds printer.old printer.new (codes "=" ∷ [] ++ expr_tokens value.now ++ codes ";" ∷ [])) }
{
    printer.put(b"=")?;
    put_expr(printer, value)?;
    printer.put(b";")
}

fn put_assign(printer: &mut Printer, name: &Name, value: &Expr) -> Result<(), Memory>
    ensures { (at : Pos) → OnOk result (Adds printer.old printer.new (statement_tokens (Assign name.now at value.now))) }
{
    put_name(printer, name)?;
    put_value(printer, value)
}

fn put_store(printer: &mut Printer, target: &CellRef, value: &Expr) -> Result<(), Memory>
    ensures { OnOk result (Adds printer.old printer.new (statement_tokens (Store target.now value.now))) }
{
    put_cell(printer, target)?;
    put_value(printer, value)
}

fn put_declare(printer: &mut Printer, word: &DeclareWord, object: &ObjectRef) -> Result<(), Memory>
    ensures { (at : Pos) → OnOk result (Adds printer.old printer.new (statement_tokens (Declare word.now at object.now))) }
{
    put_word(printer, word)?;
    printer.put(b"(")?;
    put_object(printer, object)?;
    printer.put(b")")?;
    printer.put(b";")
}

/// Puts the names of a `do` list with their parentheses.
fn put_handed(printer: &mut Printer, names: &NameList) -> Result<(), Memory>
    ensures { OnOk result (Adds printer.old printer.new (codes "do" ∷ codes "(" ∷ [] ++ name_tokens names.now ++ codes ")" ∷ [])) }
{
    printer.put(b"do")?;
    printer.put(b"(")?;
    put_names(printer, names)?;
    printer.put(b")")
}

/// Puts what stands before the first branch of an `if`.
#[tactic(auto, using(crate::proofs::Adding::after))]
fn put_test(printer: &mut Printer, test: &Expr) -> Result<(), Memory>
    ensures { OnOk result (Adds printer.old printer.new (codes "if" ∷ expr_tokens test.now)) }
{
    printer.put(b"if")?;
    put_expr(printer, test)
}

/// Puts what stands before the body of a `for`.
fn put_bounds(printer: &mut Printer, name: &Name, low: &Expr, high: &Expr) -> Result<(), Memory>
    ensures { OnOk result (Adds printer.old printer.new (codes "for" ∷ name.now ∷ codes "in" ∷ [] ++ expr_tokens low.now ++ codes ".." ∷ []
        ++ expr_tokens high.now)) }
{
    printer.put(b"for")?;
    put_name(printer, name)?;
    printer.put(b"in")?;
    put_expr(printer, low)?;
    printer.put(b"..")?;
    put_expr(printer, high)
}

#[cycle(statement)]
fn put_statement(printer: &mut Printer, statement: &Statement) -> Result<(), Memory>
    ensures { OnOk result (Adds printer.old printer.new (statement_tokens statement.now)) }
{
    match statement {
        Statement::Local {
            kind,
            name,
            value,
            ..
        } => put_local(printer, *kind, name, value),
        Statement::Assign { name, value, .. } => put_assign(printer, name, value),
        Statement::Store { target, value } => put_store(printer, target, value),
        Statement::If {
            test,
            then,
            otherwise,
        } => {
            put_test(printer, test)?;
            put_block(printer, then)?;
            match otherwise {
                None => Ok(()),
                Some(block) => put_other(printer, block),
            }
        }
        Statement::For {
            name,
            low,
            high,
            body,
            ..
        } => {
            put_bounds(printer, name, low, high)?;
            put_block(printer, body)
        }
        Statement::Withonly {
            section,
            names,
            body,
            ..
        } => {
            put_section(printer, section)?;
            put_handed(printer, names)?;
            put_block(printer, body)
        }
        Statement::With { section, .. } => put_with(printer, section),
        Statement::Declare { word, object, .. } => put_declare(printer, word, object),
    }
}

#[cycle(statement)]
fn put_other(printer: &mut Printer, block: &Block) -> Result<(), Memory>
    ensures { OnOk result (Adds printer.old printer.new (codes "else" ∷ [] ++ block_tokens block.now)) }
{
    printer.put(b"else")?;
    put_block(printer, block)
}

/// Puts the section of a `withonly`.
#[cycle(statement)]
fn put_section(printer: &mut Printer, section: &Block) -> Result<(), Memory>
    ensures { OnOk result (Adds printer.old printer.new (codes "withonly" ∷ [] ++ block_tokens section.now)) }
{
    printer.put(b"withonly")?;
    put_block(printer, section)
}

#[cycle(statement)]
fn put_with(printer: &mut Printer, section: &Block) -> Result<(), Memory>
    ensures { (at : Pos) → OnOk result (Adds printer.old printer.new (statement_tokens (With at section.now))) }
{
    printer.put(b"with")?;
    put_block(printer, section)?;
    printer.put(b"cont")?;
    printer.put(b";")
}

#[cycle(statement)]
fn put_block(printer: &mut Printer, block: &Block) -> Result<(), Memory>
    ensures { OnOk result (Adds printer.old printer.new (block_tokens block.now)) }
{
    printer.put(b"{")?;
    for i in 0..block.len() {
        put_statement(printer, block.at(i))?;
    }
    printer.put(b"}")
}

#[tactic(auto, using(crate::proofs::Adding::after))]
fn put_item(printer: &mut Printer, item: &Item) -> Result<(), Memory>
    ensures { OnOk result (Adds printer.old printer.new (item_tokens item.now)) }
{
    match item {
        Item::Input { name, pos: _ } => {
            printer.put(b"input")?;
            put_name(printer, name)?;
            printer.put(b";")
        }
        Item::Single { name, pos: _, size } => {
            printer.put(b"object")?;
            put_name(printer, name)?;
            printer.put(b":")?;
            put_number(printer, size)?;
            printer.put(b";")
        }
        Item::Family {
            name,
            pos: _,
            count,
            size,
        } => {
            printer.put(b"objects")?;
            put_name(printer, name)?;
            printer.put(b"[")?;
            put_number(printer, count)?;
            printer.put(b"]")?;
            printer.put(b":")?;
            put_number(printer, size)?;
            printer.put(b";")
        }
    }
}

fn put_program(printer: &mut Printer, program: &Program) -> Result<(), Memory>
    ensures { OnOk result (Adds printer.old printer.new (spelling program.now)) }
{
    for i in 0..program.items.len() {
        put_item(printer, program.items.at(i))?;
    }
    printer.put(b"main")?;
    put_block(printer, &program.main)
}

/// The text of a program, in the one layout that programs have. The error is want of memory.
pub fn print_program(alloc: Global, program: &Program) -> Result<Vec<u8>, Memory>
    ensures { IfOk result (λ text. text.items ≡ layout (spelling program.now)) }
{
    let mut printer = Printer::new(alloc);
    put_program(&mut printer, program)?;
    printer.finish()
}
