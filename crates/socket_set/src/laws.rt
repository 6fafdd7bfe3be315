//! Laws of sets and of handles, each as the contract of an empty function.
ghost use Rattle.std.specs.Prelude.{◌≡◌, ◌↔◌, ℕ, IsTrue};
ghost use Rattle.std.specs.declared.cmp.Ordering.TheVariants.{Equal};
ghost use Rattle.socket_set.specs.contracts.socket_set.SocketHandlePartialEq.TheImpl.{eq-value};
ghost use Rattle.socket_set.specs.contracts.socket_set.SocketHandleOrd.TheImpl.{cmp-value};
ghost use Rattle.socket_set.specs.contracts.socket_set.SocketHandleHash.TheImpl.{hash_input-value};
ghost use Rattle.socket_set.specs.Laws.{OthersStayAtAdd, OthersStayAtRemove};

/// Two handles are equal exactly if they name one index, exactly then neither is ordered before the other, and then
/// they hash alike.
pub fn handles_agree()
    ensures equality { (a b : ℕ) → IsTrue (eq-value.it a b) ↔ (a ≡ b) }
    ensures order { (a b : ℕ) → (cmp-value.it a b ≡ Equal) ↔ (a ≡ b) }
    ensures hash { (a b : ℕ) → IsTrue (eq-value.it a b) → hash_input-value.it a ≡ hash_input-value.it b }
{}

/// A socket that is added changes neither the socket of another handle nor its wait.
pub fn others_stay_at_add<L>()
    ensures { OthersStayAtAdd L }
{}

/// A socket that is removed changes neither the socket of another handle nor its wait.
pub fn others_stay_at_remove<L>()
    ensures { OthersStayAtRemove L }
{}
