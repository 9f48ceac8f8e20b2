//! What an act does.
use ag_model::answer::Answer;
use ag_model::message::Message;

/// A message to a replica.
#[derive(Debug, Drop)]
pub struct Posting {
    pub to: u8,
    pub message: Message,
}

/// What an act is answered, and the message that it sends, if there is one.
#[derive(Debug, Drop)]
pub struct Done {
    pub answer: Answer,
    pub out: Option<Posting>,
}
