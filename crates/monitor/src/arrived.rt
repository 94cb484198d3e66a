// What can arrive on a connection.

// A document, with the script that it runs; a value for a script's request; a picture; a redirect to a target.
#[derive(Clone, Copy, Debug, PartialEq, Eq)]
pub enum Arrived {
    DocumentResponse(u8),
    ScriptResponse(u32),
    PictureResponse,
    Redirect(usize),
}
