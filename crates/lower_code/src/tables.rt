// How many points and cells a call of each function has, by how deep calls nest.
ghost use Rattle.std.specs.Prelude.{◌≡◌, IfOk, length};
ghost use Rattle.lower_law.specs.Lowered.{closing_size};
ghost use Rattle.lower_pieces.specs.Sized.{number_at};
ghost use Rattle.lower_code.specs.Tables.{tree_size, tree_room, table_above, tables_to};

use lower_pieces::sizes::{room_all, sized_all};
use lower_pieces::tree::FunctionTree;
use sqlite_items::Items;
use std::alloc::{AllocError, Global};

/// How many points and cells a call of each function has, each as far as a number goes.
#[derive(Drop)]
pub struct Table {
    pub sizes: Items<u64>,
    pub rooms: Items<u64>,
}

/// The tables for calls that nest less than 0, 1 and so on deep.
pub type Tables = Items<Table>;

// The closing brace is a point of its own unless every way leads to a return.
fn closing_size(gives: bool) -> u64
    ensures { result ≡ closing_size gives }
{
    if gives { 0 } else { 1 }
}

// The points of a function where a call of each has so many.
fn tree_size(sizes: &[u64], f: &FunctionTree) -> u64
    ensures { result ≡ tree_size (number_at sizes.now) f.now }
{
    sized_all(sizes, f.body.as_slice()).saturating_add(closing_size(f.gives))
}

// The cells of a function where a call of each has so many.
fn tree_room(rooms: &[u64], f: &FunctionTree) -> u64
    ensures { result ≡ tree_room (number_at rooms.now) f.now }
{
    room_all(rooms, f.body.as_slice()).saturating_add(f.locals as u64)
}

// The table for calls that nest one deeper.
fn table_above(
    alloc: Global,
    functions: &[FunctionTree],
    below: &Table,
) -> Result<Table, AllocError>
    ensures { IfOk result (λ t. t ≡ table_above functions.now below.now) }
{
    let mut sizes = Items::new(alloc);
    let mut rooms = Items::new(alloc);
    for f in functions {
        sizes.push(tree_size(below.sizes.as_slice(), f))?;
        rooms.push(tree_room(below.rooms.as_slice(), f))?;
    }
    Ok(Table { sizes, rooms })
}

/// The first tables.
pub fn tables(
    alloc: Global,
    functions: &[FunctionTree],
    levels: usize,
) -> Result<Tables, AllocError>
    ensures levels { IfOk result (λ t. length t ≡ levels) }
    ensures tables { IfOk result (λ t. t ≡ tables_to functions.now (length t)) }
{
    let mut tables = Items::new(alloc);
    let mut table = Table {
        sizes: Items::new(alloc),
        rooms: Items::new(alloc),
    };
    for i in 0..levels {
        let above = table_above(alloc, functions, &table)?;
        tables.push(table)?;
        table = above;
    }
    Ok(tables)
}
