//! Migrations as they are written: a name, and operations in order.
ghost use Rattle.std.specs.Prelude.{◌≡◌, IfOk};

use sql_base::{Check, Copying, Expr, List, Name, NoMemory, Ty, Value};
use std::alloc::Global;

/// A column as `create_table` and `add_column` write it.
#[derive(Drop)]
pub struct ColumnDef {
    /// Its name.
    pub name: Name,
    /// The type of its values.
    pub ty: Ty,
    /// Whether it takes NULL.
    pub nullable: bool,
    /// Whether it is the table's key.
    pub pk: bool,
    /// Whether no two rows have the same value in it.
    pub unique: bool,
    /// The value of a row that names none; NULL where none is written.
    pub default: Value,
    /// A condition that each row meets.
    pub check: Option<Check>,
}

/// The expressions of `up` or `down` of a `drop_constraint`.
#[derive(Drop)]
pub enum Ways {
    /// One, which is meant for the constraint's one column.
    One(Expr),
    /// One for each of these columns, in byte order of their names.
    Each(List<(Name, Expr)>),
}

/// An operation of a migration. `up` makes a value of the new version from a row of the old one, and `down` the
/// other way round.
#[derive(Drop)]
pub enum Op {
    /// A new table.
    CreateTable {
        name: Name,
        columns: List<ColumnDef>,
    },
    /// The table leaves the new version.
    DropTable {
        name: Name,
    },
    /// The table has another name in the new version.
    RenameTable {
        from: Name,
        to: Name,
    },
    /// The table has one column more in the new version, which stands last.
    AddColumn {
        table: Name,
        column: ColumnDef,
        up: Option<Expr>,
    },
    /// The column leaves the new version.
    DropColumn {
        table: Name,
        column: Name,
        down: Option<Expr>,
    },
    /// The column has another name in the new version.
    RenameColumn {
        table: Name,
        from: Name,
        to: Name,
    },
    /// The column has another type, takes NULL or not, or has another default or a constraint in the new version.
    AlterColumn {
        table: Name,
        column: Name,
        ty: Option<Ty>,
        nullable: Option<bool>,
        default: Option<Value>,
        unique: Option<Name>,
        check: Option<Check>,
        up: Option<Expr>,
        down: Option<Expr>,
    },
    /// The table has one constraint more in the new version: a check where there is an expression, and else a unique
    /// constraint. The pairs of `up` and `down` stand in byte order of their names; absent they are no pair.
    CreateConstraint {
        table: Name,
        name: Name,
        columns: List<Name>,
        check: Option<Expr>,
        up: List<(Name, Expr)>,
        down: List<(Name, Expr)>,
    },
    /// The constraint leaves the new version.
    DropConstraint {
        table: Name,
        name: Name,
        up: Option<Ways>,
        down: Option<Ways>,
    },
}

/// A migration.
#[derive(Drop)]
pub struct Migration {
    /// Its name, which is the new version's too.
    pub name: Name,
    /// What it does, in order.
    pub operations: List<Op>,
}

impl Copying for ColumnDef {
    fn copy(&self, alloc: Global) -> Result<ColumnDef, NoMemory> {
        Ok(ColumnDef {
            name: self.name.copy(alloc)?,
            ty: self.ty,
            nullable: self.nullable,
            pk: self.pk,
            unique: self.unique,
            default: self.default.copy(alloc)?,
            check: self.check.copy(alloc)?,
        })
    }
}

impl Copying for Ways {
    fn copy(&self, alloc: Global) -> Result<Ways, NoMemory> {
        match self {
            Ways::One(expr) => Ok(Ways::One(expr.copy(alloc)?)),
            Ways::Each(pairs) => Ok(Ways::Each(pairs.copy(alloc)?)),
        }
    }
}

impl Copying for Op {
    fn copy(&self, alloc: Global) -> Result<Op, NoMemory> {
        match self {
            Op::CreateTable { name, columns } => created(alloc, name, columns),
            Op::DropTable { name } => Ok(Op::DropTable {
                name: name.copy(alloc)?,
            }),
            Op::RenameTable { from, to } => renamed(alloc, from, to),
            Op::AddColumn { table, column, up } => added(alloc, table, column, up),
            Op::DropColumn {
                table,
                column,
                down,
            } => dropped(alloc, table, column, down),
            Op::RenameColumn { table, from, to } => column_renamed(alloc, table, from, to),
            Op::AlterColumn {
                table,
                column,
                ty,
                nullable,
                default,
                unique,
                check,
                up,
                down,
            } => {
                altered(
                    alloc, table, column, *ty, *nullable, default, unique, check, up, down,
                )
            }
            Op::CreateConstraint {
                table,
                name,
                columns,
                check,
                up,
                down,
            } => { constrained(alloc, table, name, columns, check, up, down) }
            Op::DropConstraint {
                table,
                name,
                up,
                down,
            } => freed(alloc, table, name, up, down),
        }
    }
}

fn created(alloc: Global, name: &Name, columns: &List<ColumnDef>) -> Result<Op, NoMemory>
    ensures { IfOk result (λ copy. copy ≡ Op.CreateTable name.now columns.now) }
{
    Ok(Op::CreateTable {
        name: name.copy(alloc)?,
        columns: columns.copy(alloc)?,
    })
}

fn renamed(alloc: Global, from: &Name, to: &Name) -> Result<Op, NoMemory>
    ensures { IfOk result (λ copy. copy ≡ Op.RenameTable from.now to.now) }
{
    Ok(Op::RenameTable {
        from: from.copy(alloc)?,
        to: to.copy(alloc)?,
    })
}

fn added(alloc: Global, table: &Name, column: &ColumnDef, up: &Option<Expr>) -> Result<Op, NoMemory>
    ensures { IfOk result (λ copy. copy ≡ Op.AddColumn table.now column.now up.now) }
{
    Ok(Op::AddColumn {
        table: table.copy(alloc)?,
        column: column.copy(alloc)?,
        up: up.copy(alloc)?,
    })
}

fn dropped(alloc: Global, table: &Name, column: &Name, down: &Option<Expr>) -> Result<Op, NoMemory>
    ensures { IfOk result (λ copy. copy ≡ Op.DropColumn table.now column.now down.now) }
{
    Ok(Op::DropColumn {
        table: table.copy(alloc)?,
        column: column.copy(alloc)?,
        down: down.copy(alloc)?,
    })
}

fn column_renamed(alloc: Global, table: &Name, from: &Name, to: &Name) -> Result<Op, NoMemory>
    ensures { IfOk result (λ copy. copy ≡ Op.RenameColumn table.now from.now to.now) }
{
    Ok(Op::RenameColumn {
        table: table.copy(alloc)?,
        from: from.copy(alloc)?,
        to: to.copy(alloc)?,
    })
}

fn altered(
    alloc: Global,
    table: &Name,
    column: &Name,
    ty: Option<Ty>,
    nullable: Option<bool>,
    default: &Option<Value>,
    unique: &Option<Name>,
    check: &Option<Check>,
    up: &Option<Expr>,
    down: &Option<Expr>,
) -> Result<Op, NoMemory>
    ensures { IfOk result (λ copy. copy ≡ Op.AlterColumn table.now column.now ty nullable default.now unique.now check.now up.now down.now) }
{
    Ok(Op::AlterColumn {
        table: table.copy(alloc)?,
        column: column.copy(alloc)?,
        ty,
        nullable,
        default: default.copy(alloc)?,
        unique: unique.copy(alloc)?,
        check: check.copy(alloc)?,
        up: up.copy(alloc)?,
        down: down.copy(alloc)?,
    })
}

fn constrained(
    alloc: Global,
    table: &Name,
    name: &Name,
    columns: &List<Name>,
    check: &Option<Expr>,
    up: &List<(Name, Expr)>,
    down: &List<(Name, Expr)>,
) -> Result<Op, NoMemory>
    ensures { IfOk result (λ copy. copy ≡ Op.CreateConstraint table.now name.now columns.now check.now up.now down.now) }
{
    Ok(Op::CreateConstraint {
        table: table.copy(alloc)?,
        name: name.copy(alloc)?,
        columns: columns.copy(alloc)?,
        check: check.copy(alloc)?,
        up: up.copy(alloc)?,
        down: down.copy(alloc)?,
    })
}

fn freed(
    alloc: Global,
    table: &Name,
    name: &Name,
    up: &Option<Ways>,
    down: &Option<Ways>,
) -> Result<Op, NoMemory>
    ensures { IfOk result (λ copy. copy ≡ Op.DropConstraint table.now name.now up.now down.now) }
{
    Ok(Op::DropConstraint {
        table: table.copy(alloc)?,
        name: name.copy(alloc)?,
        up: up.copy(alloc)?,
        down: down.copy(alloc)?,
    })
}

impl Copying for Migration {
    fn copy(&self, alloc: Global) -> Result<Migration, NoMemory> {
        Ok(Migration {
            name: self.name.copy(alloc)?,
            operations: self.operations.copy(alloc)?,
        })
    }
}
