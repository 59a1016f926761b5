// The steps in their groups, each step from the context that those before it made.
ghost use Rattle.std.specs.Prelude.{◌≡◌, ◌*◌, ◌≤◌, length};
ghost use Rattle.oat.specs.Basics.{tabulate};
ghost use Rattle.typing_rules.specs.Steps.{struct_name, struct_fields, headings, globals, bodies};
ghost use Rattle.answers.specs.Walks.{SameBuffers};
ghost use Rattle.typing.specs.Runs.{start, AnsweredAllAt, ReadyBuiltInsAt, ToldBuiltInsAt, ReadyStructsAt, ReadyDeclAt, ToldDeclAt, HeadingToldAt, ReadyDeclsAt, ToldDeclsAt, HeadingsToldAt};
ghost use Rattle.bindings.specs.Buffers.{SameWork};

use answers::answer::Walk;
use answers::file::IndexedFile;
use bindings::Bindings;
use file_sections::records::node_kind;
use file_sections::trees::past;
use steps::context::{Context, Refusal};

// Struct names.
pub fn struct_names(file: &IndexedFile<'_>) -> Result<Context, Refusal>
    ensures { AnsweredAllAt file.now start (tabulate file.now.sections.structs struct_name) result }
{
    let mut names = [0u16; 256];
    let mut c = Context::empty();
    for i in 0..file.sections.structs {
        c = c.struct_step(file.bytes, file.sections, &mut names, i)?;
    }
    Ok(c)
}

// Built-ins.
pub fn built_ins(
    context: Context,
    file: &IndexedFile<'_>,
    bindings: &mut Bindings<'_>,
) -> Result<Context, Refusal>
    requires { ReadyBuiltInsAt file.now bindings.old context }
    ensures told { ToldBuiltInsAt file.now bindings.old context bindings.new result }
    ensures work_unchanged { bindings.new.work ≡ bindings.old.work }
{
    let mut c = context;
    for i in 0..file.sections.built_ins {
        let work = &mut *bindings.work;
        c = c.built_in_step(file, &*work, &mut bindings.chains, i)?;
    }
    Ok(c)
}

// The heading of the declaration at `node`, where it is a function.
fn heading(
    context: Context,
    file: &IndexedFile<'_>,
    bindings: &mut Bindings<'_>,
    node: usize,
) -> Result<Context, Refusal>
    requires { ReadyDeclAt file.now bindings.old context node }
    ensures told { HeadingToldAt file.now bindings.old context node bindings.new result }
    ensures same_work { SameWork bindings.old bindings.new }
{
    match node_kind(file.bytes, file.sections, node) {
        2 => context.heading_step(file, bindings, node),
        _ => Ok(context),
    }
}

// Function headings.
pub fn headings(
    context: Context,
    file: &IndexedFile<'_>,
    bindings: &mut Bindings<'_>,
) -> Result<Context, Refusal>
    requires { ReadyDeclsAt headings file.now bindings.old context }
    ensures told { HeadingsToldAt file.now bindings.old context bindings.new result }
    ensures same_work { SameWork bindings.old bindings.new }
{
    // The loop follows the ends of trees. Those of `globals` and `bodies` differ in their step alone; one generic function would need a
    // trait with the step, its group and the group's laws as ghost members, and three types with an impl each: no plainer.
    let mut c = context;
    let mut node = 0;
    while node < file.sections.nodes {
        c = heading(c, file, bindings, node)?;
        node = past(file.bytes, file.sections, node);
    }
    Ok(c)
}

// The declaration at `node`, where it is a global.
fn global(
    context: Context,
    file: &IndexedFile<'_>,
    walk: &mut Walk<'_>,
    node: usize,
) -> Result<Context, Refusal>
    requires { ReadyDeclAt file.now walk.old.bindings context node × (file.now.sections.nodes * 2 ≤ length walk.old.rows.now) }
    ensures told { ToldDeclAt globals file.now walk.old context node walk.new result }
    ensures same_buffers { SameBuffers walk.old walk.new }
{
    match node_kind(file.bytes, file.sections, node) {
        1 => context.global_step(file, walk, node),
        _ => Ok(context),
    }
}

// Globals.
pub fn globals(
    context: Context,
    file: &IndexedFile<'_>,
    walk: &mut Walk<'_>,
) -> Result<Context, Refusal>
    requires { ReadyDeclsAt globals file.now walk.old.bindings context × (file.now.sections.nodes * 2 ≤ length walk.old.rows.now) }
    ensures told { ToldDeclsAt globals file.now walk.old context walk.new result }
    ensures same_buffers { SameBuffers walk.old walk.new }
{
    let mut c = context;
    let mut node = 0;
    while node < file.sections.nodes {
        c = global(c, file, walk, node)?;
        node = past(file.bytes, file.sections, node);
    }
    Ok(c)
}

// Struct fields.
pub fn struct_fields(context: Context, file: &IndexedFile<'_>) -> Result<Context, Refusal>
    requires { ReadyStructsAt file.now context }
    ensures { AnsweredAllAt file.now context (tabulate file.now.sections.structs struct_fields) result }
{
    let mut c = context;
    for i in 0..file.sections.structs {
        c = c.fields_step(file, i)?;
    }
    Ok(c)
}

// The body of the declaration at `node`, where it is a function.
fn body(
    context: Context,
    file: &IndexedFile<'_>,
    walk: &mut Walk<'_>,
    node: usize,
) -> Result<Context, Refusal>
    requires { ReadyDeclAt file.now walk.old.bindings context node × (file.now.sections.nodes * 2 ≤ length walk.old.rows.now) }
    ensures told { ToldDeclAt bodies file.now walk.old context node walk.new result }
    ensures same_buffers { SameBuffers walk.old walk.new }
{
    match node_kind(file.bytes, file.sections, node) {
        2 => context.body_step(file, walk, node),
        _ => Ok(context),
    }
}

// Function bodies.
pub fn bodies(
    context: Context,
    file: &IndexedFile<'_>,
    walk: &mut Walk<'_>,
) -> Result<Context, Refusal>
    requires { ReadyDeclsAt bodies file.now walk.old.bindings context × (file.now.sections.nodes * 2 ≤ length walk.old.rows.now) }
    ensures told { ToldDeclsAt bodies file.now walk.old context walk.new result }
    ensures same_buffers { SameBuffers walk.old walk.new }
{
    let mut c = context;
    let mut node = 0;
    while node < file.sections.nodes {
        c = body(c, file, walk, node)?;
        node = past(file.bytes, file.sections, node);
    }
    Ok(c)
}
