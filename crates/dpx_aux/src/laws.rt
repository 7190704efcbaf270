//! Laws of the definitions. Each function's contract is the law.
ghost use Rattle.dpx_aux.specs.declared.request.Request.{Request};
ghost use Rattle.dpx_aux.specs.Conversation.{IsDecided, Suffices};
ghost use Rattle.dpx_aux.specs.Asking.{asks_at_most};
ghost use Rattle.dpx_aux.specs.Transaction.{Transaction};

/// For given answers a request has one transaction, and it has one end.
pub fn one_transaction()
    ensures { (request : Request) → IsDecided (Transaction request) }
{}

/// Of every eight answers some front is those of a transaction, whatever they are.
pub fn some_transaction()
    ensures { (request : Request) → Suffices asks_at_most (Transaction request) }
{}
