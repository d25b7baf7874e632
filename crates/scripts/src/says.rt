// The answers that the document expects. Root port, submit and cancel are 0 in all cases.
use definition::Answer;

const NOTHING: Answer = Answer {
    code: 0,
    slot: 0,
    launched: 0,
    terminated: 0,
    port: 0,
    stored: 0,
    submit: 0,
    cancel: 0,
};

const DONE: Answer = Answer { code: 1, ..NOTHING };

pub const ENABLED: Answer = Answer { slot: 1, ..DONE };

pub const ADDRESSED: Answer = Answer {
    launched: 2,
    stored: 66,
    ..DONE
};

pub const ADDRESSED_AGAIN: Answer = Answer {
    launched: 2,
    terminated: 2,
    stored: 67,
    ..DONE
};

// Endpoint 3 is added; endpoint 31 is.
pub const ADDED_3: Answer = Answer {
    launched: 8,
    stored: 34,
    ..DONE
};

pub const ADDED_31: Answer = Answer {
    launched: 0x8000_0000,
    stored: 34,
    ..DONE
};

pub const STOPPED: Answer = Answer { stored: 9, ..DONE };

// Endpoints 2 to 31 are dropped and added: the most bytes stored.
pub const REPLACED: Answer = Answer {
    launched: 0xffff_fffc,
    terminated: 0xffff_fffc,
    stored: 1021,
    ..DONE
};

pub const ALL_RESET: Answer = Answer {
    stored: 496,
    ..NOTHING
};

// ---- refusals

pub const NO_SLOTS: Answer = Answer { code: 9, ..NOTHING };

pub const WRONG_TYPE: Answer = Answer {
    code: 17,
    ..NOTHING
};

pub const WRONG_STATE: Answer = Answer {
    code: 19,
    ..NOTHING
};

pub const OUTSIDE: Answer = Answer {
    code: 193,
    ..NOTHING
};
