// A line of a script: the command that its word names, and the fields behind it. All of them are read before anything is done.
#![tactic(auto)]

ghost use Rattle.std.specs.Prelude.{◌≡◌, ◌≤◌, IfOk, length};
ghost use Rattle.std.specs.Result.{is_ok};
ghost use Rattle.model.specs.Bytes.{view};
ghost use Rattle.script.specs.Fields.{Takes};
ghost use Rattle.lines.specs.Commands.{look_from, change_from, look_forms, call_forms, change_forms, forms_of, command_of, named_by, asked, Fitting};

// The commands that only look.
#[derive(Clone, Copy)]
pub enum Look {
    Digest,
    Block,
    Space,
    GetInfo,
    Read,
    Find,
}

// The calls that change the volume and are done or refused.
#[derive(Clone, Copy)]
pub enum Call {
    Format,
    Create,
    Destroy,
    Rename,
    SetInfo,
    SetEof,
}

// The commands that change the image.
#[derive(Clone, Copy)]
pub enum Change {
    Call(Call),
    Write,
    Fill,
    Set,
    SetRun,
}

// `Blocks` and `Bytes` make a new image. `Unknown` is a case like the others and no `None`: its line is read in forms too, which are none.
#[derive(Clone, Copy)]
pub enum Command {
    Blocks,
    Bytes,
    Look(Look),
    Change(Change),
    Unknown,
}

// The fields of a line are bad, and this is the command that its word names.
#[derive(Clone, Copy)]
pub struct BadFields {
    pub command: Command,
}

// What a command answers whose line is bad: it asks for more than there is, and nothing was changed or printed.
#[derive(Clone, Copy)]
pub struct BadLine;

// Tests one by one: of a byte string in a pattern a proof knows the length alone.
#[tactic(auto, unfolding(crate::specs::Commands::named))]
fn look_of(line: &[u8], end: usize) -> Command
    ensures { result ≡ look_from (view line.now) (length line.now) end }
{
    if script::is_word(line, end, b"digest") {
        return Command::Look(Look::Digest);
    }
    if script::is_word(line, end, b"block") {
        return Command::Look(Look::Block);
    }
    if script::is_word(line, end, b"space") {
        return Command::Look(Look::Space);
    }
    if script::is_word(line, end, b"getinfo") {
        return Command::Look(Look::GetInfo);
    }
    if script::is_word(line, end, b"read") {
        return Command::Look(Look::Read);
    }
    if script::is_word(line, end, b"find") {
        return Command::Look(Look::Find);
    }
    if script::is_word(line, end, b"blocks") {
        return Command::Blocks;
    }
    if script::is_word(line, end, b"bytes") {
        return Command::Bytes;
    }
    Command::Unknown
}

// The command of a line whose word ends at `end`.
#[tactic(auto, unfolding(crate::specs::Commands::named))]
fn command_of(line: &[u8], end: usize) -> Command
    ensures { result ≡ change_from (view line.now) (length line.now) end }
{
    if script::is_word(line, end, b"format") {
        return Command::Change(Change::Call(Call::Format));
    }
    if script::is_word(line, end, b"create") {
        return Command::Change(Change::Call(Call::Create));
    }
    if script::is_word(line, end, b"destroy") {
        return Command::Change(Change::Call(Call::Destroy));
    }
    if script::is_word(line, end, b"rename") {
        return Command::Change(Change::Call(Call::Rename));
    }
    if script::is_word(line, end, b"setinfo") {
        return Command::Change(Change::Call(Call::SetInfo));
    }
    if script::is_word(line, end, b"seteof") {
        return Command::Change(Change::Call(Call::SetEof));
    }
    if script::is_word(line, end, b"write") {
        return Command::Change(Change::Write);
    }
    if script::is_word(line, end, b"fill") {
        return Command::Change(Change::Fill);
    }
    if script::is_word(line, end, b"set") {
        return Command::Change(Change::Set);
    }
    if script::is_word(line, end, b"setrun") {
        return Command::Change(Change::SetRun);
    }
    look_of(line, end)
}

// A text is T, a second one S, data D, a number N, one of at most 65,535 H, a byte B.
fn look_forms(look: Look) -> &'static [u8]
    ensures { result.now ≡ look_forms look }
{
    match look {
        Look::Digest => b"",
        Look::Block => b"N",
        Look::Space => b"",
        Look::GetInfo => b"T",
        Look::Read => b"TNN",
        Look::Find => b"T",
    }
}

fn call_forms(call: Call) -> &'static [u8]
    ensures { result.now ≡ call_forms call }
{
    match call {
        Call::Format => b"THH",
        Call::Create => b"TBBHHH",
        Call::Destroy => b"T",
        Call::Rename => b"TS",
        Call::SetInfo => b"TBHHH",
        Call::SetEof => b"TNHH",
    }
}

fn change_forms(change: Change) -> &'static [u8]
    ensures { result.now ≡ change_forms change }
{
    match change {
        Change::Call(call) => call_forms(call),
        Change::Write => b"TNHHD",
        Change::Fill => b"TNHHNB",
        Change::Set => b"ND",
        Change::SetRun => b"NNB",
    }
}

fn forms_of(command: Command) -> &'static [u8]
    ensures { result.now ≡ forms_of command }
{
    match command {
        Command::Blocks => b"N",
        Command::Bytes => b"N",
        Command::Look(look) => look_forms(look),
        Command::Change(change) => change_forms(change),
        Command::Unknown => b"",
    }
}

// Reads the line's word and, in the forms of its command, all fields.
#[tactic(auto, using(crate::proofs::ReadLaws::line_command))]
pub fn read_line(
    line: &[u8],
    values: &mut [usize],
    room: &mut [u8],
    buffer: &mut [u8],
) -> Result<Command, BadFields>
    requires { (length line.now ≤ 4096) × (6 ≤ length values.old) × (length room.old ≡ 256) }
    ensures command_value { named_by result ≡ command_of (view line.now) (length line.now) }
    ensures takes { Takes (asked (view line.now) (length line.now) (length buffer.old) (view values.old) (view room.old) (view buffer.old)) (length line.now) (is_ok result) values.new room.new buffer.new }
    ensures fitting { IfOk result (λ k. Fitting k (length buffer.old) values.new) }
{
    let end = script::word_end(line);
    let command = command_of(line, end);
    if script::read_fields(line, end, forms_of(command), values, room, buffer) {
        Ok(command)
    } else {
        Err(BadFields { command })
    }
}
