//! The words that a child is started with.
ghost use Rattle.std.specs.Prelude.{◌≡◌, ◌+◌, ◌++◌, ◌∷◌, [], IfOk, OnOk, codes, decimal, map, string_bytes};
ghost use Rattle.rtmfp_meet.specs.Nodes.{digits_of, group, name_of, opening, place, print_of, words_of};
ghost use Rattle.hex.specs.Hex.{encode_lower};

use crate::node::Node;
use itoa::Buffer;
use rtmfp_words::MeetWords;
use std::alloc::{AllocError, Global};
use std::marker::Model;

/// The digits of the secret of the group.
const GROUP: &str = "0000000000000000000000000000000000000000000000000000000000000000";

/// The digits of the message that the caller sends.
const MESSAGE: &str = "68656c6c6f";

/// Words that are being made, seen by contracts as the list of their texts.
#[derive(Drop)]
pub(crate) struct Words {
    alloc: Global,
    words: Vec<String>,
}

impl Model for Words {
    ghost use Rattle.std.specs.Prelude.{List, ℕ, map, string_bytes};

    ghost Value = { List (List ℕ) };

    ghost view = { λ w. map string_bytes w.words.items };
}

impl Words {
    /// No words.
    fn new(alloc: Global) -> Words
        ensures { result ≡ [] }
    {
        Words {
            alloc,
            words: Vec::new(alloc),
        }
    }

    /// The words.
    pub(crate) fn words(&self) -> &[String]
        ensures { map string_bytes result.now ≡ self.now }
    {
        self.words.as_slice()
    }

    /// Adds a word that was made.
    fn add(&mut self, word: String) -> Result<(), AllocError>
        ensures { OnOk result (self.new ≡ self.old ++ string_bytes word ∷ []) }
    {
        self.words.push(word)?;
        Ok(())
    }

    /// Adds a word.
    fn push(&mut self, word: &str) -> Result<(), AllocError>
        ensures { OnOk result (self.new ≡ self.old ++ word.now ∷ []) }
    {
        let word = String::from_str(self.alloc, word)?;
        self.add(word)
    }

    /// Adds a number.
    fn push_number(&mut self, number: u64) -> Result<(), AllocError>
        ensures { OnOk result (self.new ≡ self.old ++ decimal number ∷ []) }
    {
        self.push(Buffer::new().format(number))
    }

    /// Adds a port of this machine.
    fn push_place(&mut self, port: u64) -> Result<(), AllocError>
        ensures { OnOk result (self.new ≡ self.old ++ place port ∷ []) }
    {
        let word = place(self.alloc, port)?;
        self.add(word)
    }

    /// Adds an opening.
    fn push_opening(&mut self, node: Node, port: u64) -> Result<(), AllocError>
        ensures { OnOk result (self.new ≡ self.old ++ opening node port ∷ []) }
    {
        let word = opening(self.alloc, node, port)?;
        self.add(word)
    }

    /// Adds the command, where the node listens, and the secret of the group.
    fn push_place_words(&mut self, port: u64) -> Result<(), AllocError>
        ensures { OnOk result (self.new ≡ self.old ++ codes "serve" ∷ place port ∷ group ∷ []) }
    {
        self.push("serve")?;
        self.push_place(port)?;
        self.push(GROUP)
    }

    /// Adds the node's name and its turns.
    fn push_name_words(&mut self, node: Node, turns: u64) -> Result<(), AllocError>
        ensures { OnOk result (self.new ≡ self.old ++ name_of node ∷ codes "--turns"
            ∷ decimal turns ∷ []) }
    {
        self.push(node.name())?;
        self.push("--turns")?;
        self.push_number(turns)
    }

    /// Adds the node's instance bytes.
    fn push_instance(&mut self, node: Node) -> Result<(), AllocError>
        ensures { OnOk result (self.new ≡ self.old ++ codes "--instance" ∷ digits_of node ∷ []) }
    {
        self.push("--instance")?;
        self.push(node.digits())?;
        Ok(())
    }

    /// Adds the message that it sends.
    fn push_message(&mut self) -> Result<(), AllocError>
        ensures { OnOk result (self.new ≡ self.old ++ codes "--send" ∷ codes "68656c6c6f" ∷ []) }
    {
        self.push("--send")?;
        self.push(MESSAGE)
    }
}

/// A port of this machine, as a word.
fn place(alloc: Global, port: u64) -> Result<String, AllocError>
    ensures { IfOk result (λ word. string_bytes word ≡ place port) }
{
    let mut word = String::from_str(alloc, "127.0.0.1:")?;
    word.push_str(Buffer::new().format(port))?;
    Ok(word)
}

/// The digits of the fingerprint of a node's certificate.
fn print_digits(alloc: Global, node: Node) -> Result<String, AllocError>
    ensures { IfOk result (λ word. string_bytes word ≡ encode_lower (print_of node)) }
{
    match node.print(alloc) {
        Ok(print) => hex::encode(alloc, print.as_slice()),
        Err(error) => Err(error),
    }
}

/// The node that is called, and at which port, as a word.
fn opening(alloc: Global, node: Node, port: u64) -> Result<String, AllocError>
    ensures { IfOk result (λ word. string_bytes word ≡ opening node port) }
{
    let place = place(alloc, port)?;
    let mut word = print_digits(alloc, node)?;
    word.push_str("@")?;
    word.push_str(place.as_str())?;
    Ok(word)
}

/// The words of the introducer.
fn introducer_words(alloc: Global, meet: MeetWords) -> Result<Words, AllocError>
    ensures { IfOk result (λ words. words ≡ words_of Node.Introducer meet.port meet.turns) }
{
    let mut words = Words::new(alloc);
    words.push_place_words(meet.port as u64)?;
    words.push_name_words(Node::Introducer, meet.turns)?;
    words.push("--introduce")?;
    words.push_instance(Node::Introducer)?;
    Ok(words)
}

/// The words of the answerer.
fn answerer_words(alloc: Global, meet: MeetWords) -> Result<Words, AllocError>
    ensures { IfOk result (λ words. words ≡ words_of Node.Answerer meet.port meet.turns) }
{
    let mut words = Words::new(alloc);
    words.push_place_words(meet.port as u64 + 1)?;
    words.push_name_words(Node::Answerer, meet.turns)?;
    words.push_instance(Node::Answerer)?;
    words.push_opening(Node::Introducer, meet.port as u64)?;
    Ok(words)
}

/// The words of the caller.
fn caller_words(alloc: Global, meet: MeetWords) -> Result<Words, AllocError>
    ensures { IfOk result (λ words. words ≡ words_of Node.Caller meet.port meet.turns) }
{
    let mut words = Words::new(alloc);
    words.push_place_words(meet.port as u64 + 2)?;
    words.push_name_words(Node::Caller, meet.turns)?;
    words.push_instance(Node::Caller)?;
    words.push_message()?;
    words.push_opening(Node::Answerer, meet.port as u64)?;
    Ok(words)
}

/// The words that the child of a node is started with.
pub(crate) fn child_words(alloc: Global, node: Node, meet: MeetWords) -> Result<Words, AllocError>
    ensures { IfOk result (λ words. words ≡ words_of node meet.port meet.turns) }
{
    match node {
        Node::Introducer => introducer_words(alloc, meet),
        Node::Answerer => answerer_words(alloc, meet),
        Node::Caller => caller_words(alloc, meet),
    }
}
