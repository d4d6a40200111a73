// What holds of a client and the server that answers it, by the definitions alone.
ghost use Rattle.std.specs.Prelude.{◌≡◌, ℕ, List, None, IfSome};
ghost use Rattle.mav_names.specs.declared.names.Stream.{Stream};
ghost use Rattle.mav_ftp.specs.Client.{TransferState, FileOrder, no_transfer, fetch_order, store_order, order_fault};
ghost use Rattle.mav_ftp.specs.Client.{ordered, request_of, transfer_step, transfer_tick};
ghost use Rattle.mav_ftp.specs.Server.{FilesState};
ghost use Rattle.mav_ftp.specs.Ranges.{PayloadInRange};
ghost use Rattle.mav_ftp.specs.ClientRanges.{TransfersInRange, OrderInRange};
ghost use Rattle.mav_ftp.specs.ClientLaws.{Delivery, IsEnough, carried_out, CanFetch, Fetched, CanStore};
ghost use Rattle.mav_ftp.specs.ClientLaws.{StoredAndFetched};

/// A client in range stays in range, whatever it takes, and each of its requests is a payload.
pub fn every_client()
    ensures new { TransfersInRange no_transfer }
    ensures order { (s : TransferState) → (order : FileOrder) → OrderInRange order → order_fault s order ≡ None
        → TransfersInRange (ordered s order) }
    ensures step { (s : TransferState) → TransfersInRange s → (payload : List ℕ) → PayloadInRange payload
        → TransfersInRange (transfer_step s payload) }
    ensures tick { (s : TransferState) → TransfersInRange s → TransfersInRange (transfer_tick s) }
    ensures request { (s : TransferState) → TransfersInRange s
        → IfSome s.operation (λ t. PayloadInRange (request_of s)) }
{}

/// A fetch gives exactly the bytes of the server's file, and those of a file that was stored before are the ones that
/// were stored. Requests and replies may be lost, if fewer than five are in a row: each request has its effect once,
/// however often it is sent.
pub fn every_fetched_file()
    ensures fetched { (from : Stream) → (name : List ℕ) → (bytes : List ℕ) → (c : TransferState) → (s : FilesState)
        → CanFetch from name bytes c s
        → (gets : List Delivery) → IsEnough bytes gets
        → Fetched bytes s (carried_out from gets (fetch_order name) c s) }
    ensures stored { (from : Stream) → (name : List ℕ) → (bytes : List ℕ) → (c : TransferState) → (s : FilesState)
        → CanStore from name bytes c s
        → (puts : List Delivery) → (gets : List Delivery) → IsEnough bytes puts → IsEnough bytes gets
        → let put = carried_out from puts (store_order name bytes) c s in
        StoredAndFetched name bytes s put (carried_out from gets (fetch_order name) put.client put.server) }
{}
