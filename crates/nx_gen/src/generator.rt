// The commands, one after the other.
ghost use Rattle.std.specs.Prelude.{◌≡◌, ◌<◌, ◌≤◌, ◌^◌, [], ◌∷◌, IsOkAnd, IfOk, IfSome, OnErr, OnOk, MatchOption};
ghost use Rattle.nx_script.specs.Commands.{CanCome};
ghost use Rattle.nx_gen.specs.Commands.{after_kind, commands, kind_commands, gen_name, instruction_node, second_in};
ghost use Rattle.nx_gen.specs.Draws.{drawn_text};
ghost use Rattle.nx_gen.specs.Remaining.{follow_up};

use crate::document::{document, text_node};
use crate::draws::Draws;
use nx_script::{Command, LineBody, LoadBody, TextBody};
use nx_tree::{Bytes, Kind, NoMemory, Node, Path};
use std::alloc::Global;
use std::marker::Model;

// What comes next.
#[derive(Clone, Copy, Debug)]
enum Stage {
    // The document is loaded.
    Begins,
    // So many times commands are drawn, and then the document is exported.
    Draws(u32),
    // What was inserted in this element is deleted, and then so many times commands are drawn.
    Deletes(u32, u32),
    // Nothing.
    Ends,
}

/// The commands of a generated script, one after the other.
#[derive(Drop)]
pub struct Gen {
    alloc: Global,
    stage: Stage,
    n: u32,
    draws: Draws,
}

impl Model for Gen {
    ghost use Rattle.std.specs.Prelude.{List, ◌≤◌};
    ghost use Rattle.nx_script.specs.declared.command.Command.{Command};

    ghost Value = { List Command };

    ghost use Rattle.std.specs.Coded.{coded_list};
    ghost use Rattle.nx_script.specs.contracts.command.Command as command;

    ghost coded = { coded_list command.the_row.coded };

    ghost use Rattle.nx_gen.specs.Remaining.{remaining_at};

    ghost view = { λ a. remaining_at a.stage a.n a.draws.state };

    ghost invariant = { λ a. (1 ≤ a.n) × (a.n ≤ 100000) };
}

impl Gen {
    /// The commands of a seed below 2^31 and a number from 1 to 100,000. It takes no memory yet, so it doesn't fail.
    pub fn new(alloc: Global, seed: u32, n: u32) -> Result<Gen, NoMemory>
        requires seed { seed < 2 ^ 31 }
        requires some { 1 ≤ n }
        requires few { n ≤ 100000 }
        ensures { IsOkAnd result (λ gen. gen ≡ commands seed n) }
    {
        Ok(Gen {
            alloc,
            stage: Stage::Begins,
            n,
            draws: Draws { state: seed },
        })
    }

    /// The next command, or `None` after the last one. It is one that a script can give.
    ///
    /// Errors: `NoMemory`. The same commands remain then, so a later call goes on where this one should have.
    pub fn next(&mut self) -> Result<Option<Command>, NoMemory>
        ensures ok { IfOk result (λ next. MatchOption next ((self.old ≡ []) × (self.new ≡ [])) (λ command. self.old ≡ command ∷ self.new)) }
        ensures can { IfOk result (λ next. IfSome next CanCome) }
        ensures err { OnErr result (self.new ≡ self.old) }
    {
        let mut draws = self.draws;
        match self.stage {
            Stage::Begins => {
                let tree = document(self.alloc, &mut draws, self.n)?;
                let name = gen_name(self.alloc)?;
                self.draws = draws;
                self.stage = Stage::Draws(self.n);
                Ok(Some(Command::Load {
                    name,
                    body: LoadBody::Read(tree),
                }))
            }
            Stage::Draws(0) => {
                let name = gen_name(self.alloc)?;
                self.stage = Stage::Ends;
                Ok(Some(Command::Export { name }))
            }
            Stage::Draws(many) => {
                let element = draws.below(self.n);
                let kind = draws.below(4);
                let command = command(self.alloc, element, kind, &mut draws)?;
                self.draws = draws;
                self.stage = if kind == 3 {
                    Stage::Deletes(element, many - 1)
                } else {
                    Stage::Draws(many - 1)
                };
                Ok(Some(command))
            }
            Stage::Deletes(element, many) => {
                let name = gen_name(self.alloc)?;
                let path = second_in(self.alloc, element)?;
                self.stage = Stage::Draws(many);
                Ok(Some(Command::Delete { name, path }))
            }
            Stage::Ends => Ok(None),
        }
    }
}

// The first of the commands of a kind at an element. A text is drawn unless the kind is 2.
fn command(alloc: Global, element: u32, kind: u32, draws: &mut Draws) -> Result<Command, NoMemory>
    requires { kind < 4 }
    ensures command { IfOk result (λ command. kind_commands element kind (drawn_text draws.old.state) ≡ command ∷ follow_up element kind) }
    ensures can { IfOk result (λ command. CanCome command) }
    ensures state { OnOk result (draws.new.state ≡ after_kind kind draws.old.state) }
{
    let name = gen_name(alloc)?;
    if kind == 2 {
        let path = Path::from_slice(alloc, &[0, element])?;
        return Ok(Command::Get { name, path });
    }
    let path = second_in(alloc, element)?;
    let text = draws.text(alloc)?;
    Ok(match kind {
        0 => Command::Retext {
            name,
            path,
            text: TextBody::Read(text),
        },
        1 => Command::Insert {
            name,
            path,
            line: LineBody::Read(text_node(alloc, text)),
        },
        _ => Command::Insert {
            name,
            path,
            line: LineBody::Read(instruction(alloc, text)?),
        },
    })
}

// The name under which the document is kept.
fn gen_name(alloc: Global) -> Result<Bytes, NoMemory>
    ensures { IfOk result (λ bytes. bytes ≡ gen_name) }
{
    Bytes::from_slice(alloc, b"gen")
}

// The path of the second child of an element.
fn second_in(alloc: Global, element: u32) -> Result<Path, NoMemory>
    ensures { IfOk result (λ path. path ≡ second_in element) }
{
    Path::from_slice(alloc, &[0, element, 1])
}

// An instruction `p`.
fn instruction(alloc: Global, content: Bytes) -> Result<Node, NoMemory>
    ensures { IfOk result (λ node. node ≡ instruction_node content) }
{
    Ok(Node {
        kind: Kind::Instruction,
        name: Bytes::from_slice(alloc, b"p")?,
        content,
    })
}
