// What each kind of ticket asks for before its step is taken.

// What it names: nothing, a sender, an order to be opened, or an order that is held.
#[derive(Clone, Copy)]
pub enum Subject {
    Nothing,
    Sender,
    NewOrder,
    HeldOrder,
}

// Who answers for it.
#[derive(Clone, Copy)]
pub enum Party {
    Anyone,
    Payer,
    Payee,
}

// The status and mark that its order must have.
#[derive(Clone, Copy)]
pub enum Needs {
    Anything,
    Waiting,
    Unmarked,
    Asked,
}

// What it does with available cover: nothing, brings more in, draws on it, sets it to the opening covers, confirms that.
#[derive(Clone, Copy)]
pub enum Flow {
    Nothing,
    Brings,
    Draws,
    Cuts,
    Confirms,
}

// Timely: it comes less than 864,000 seconds after the order's settlement. Within: its amount is at most the order's.
#[derive(Clone, Copy)]
pub struct Terms {
    pub subject: Subject,
    pub party: Party,
    pub needs: Needs,
    pub timely: bool,
    pub within: bool,
    pub flow: Flow,
}
